// Payloads (Protocol Buffers, "Message Structure", "Length-Delimited Records"): the number that was read, where the raw bytes stand, the
// place behind them, and the raw bytes themselves; and the same of whole fields, a tag and its payload, as the text's messages have them.
use crate::out::{Answer, Case, Found, Hex, lines};
use crate::tags::found;
use message::payload::{Payload, read_len_delimited, read_payload, read_raw_varint};
use protobuf::refusal::Refusal;
use protobuf::tag::Tag;
use std::io::Write;
use std::{fmt, io, str};

// The part of `s` that a payload names: empty where it passes the bytes, so that such an answer shows in what is printed.
fn part(s: &[u8], payload: Payload) -> &[u8] {
    s.get(payload.start..)
        .and_then(|rest| rest.get(..payload.len))
        .unwrap_or(&[])
}

// A payload of `s`, and the place behind it.
#[derive(Clone, Copy)]
struct Raw<'a> {
    s: &'a [u8],
    payload: Payload,
    next: usize,
}

impl fmt::Display for Raw<'_> {
    fn fmt<W: fmt::Write>(&self, f: &mut fmt::Formatter<W>) -> fmt::Result {
        let Payload { value, start, len } = self.payload;
        let raw = Hex(part(self.s, self.payload));
        write!(
            f,
            " value {value}, start {start}, length {len}, next {}, raw{raw}",
            self.next
        )
    }
}

fn raw_of(s: &[u8], read: Result<(Payload, usize), Refusal>) -> Answer<Raw<'_>> {
    Answer(read.map(|(payload, next)| Raw { s, payload, next }))
}

// The payload at a place, by a reader that takes bytes and a place.
fn payload_at<F: FnOnce(&[u8], usize) -> Result<(Payload, usize), Refusal> + Drop>(
    case: Case<'_>,
    read: F,
) -> Answer<Raw<'_>>
    requires { F.IsAlwaysCallable read }
{
    raw_of(case.bytes, read(case.bytes, case.start()))
}

// A field: what its tag says, and its payload.
#[derive(Clone, Copy)]
struct Field<'a> {
    tag: Tag,
    payload: Answer<Raw<'a>>,
}

impl fmt::Display for Field<'_> {
    fn fmt<W: fmt::Write>(&self, f: &mut fmt::Formatter<W>) -> fmt::Result {
        write!(
            f,
            " field {}, type {}:{}",
            self.tag.field, self.tag.wire, self.payload
        )
    }
}

fn field_at(s: &[u8], at: usize) -> Answer<Found<Field<'_>>> {
    found(
        s,
        at,
        |tag, next| Field {
            tag,
            payload: raw_of(s, read_payload(s, next, tag.field, tag.wire)),
        },
    )
}

fn whole(case: Case<'_>) -> Answer<Found<Field<'_>>> {
    field_at(case.bytes, case.start())
}

// The bytes of a string field, as the text that they spell.
#[derive(Clone, Copy)]
struct Text<'a>(&'a [u8]);

impl fmt::Display for Text<'_> {
    fn fmt<W: fmt::Write>(&self, f: &mut fmt::Formatter<W>) -> fmt::Result {
        match str::from_utf8(self.0) {
            Ok(text) => write!(f, " {text}"),
            Err(_) => write!(f, "{}", Hex(self.0)),
        }
    }
}

// What stands in the bytes of a length-delimited field. The place is the one behind its tag, and places inside count from the start of the part
// that the length counts.
fn inside<'a, T, F: FnOnce(&'a [u8]) -> T + Drop>(case: Case<'a>, read: F) -> Answer<T>
    requires { F.IsAlwaysCallable read }
{
    let found = read_len_delimited(case.bytes, case.start());
    Answer(found.map(|(raw, _)| read(part(case.bytes, raw))))
}

// The text's messages: field 1 is 150; field 2 is "testing"; field 3 holds the first message.
fn messages<W: Write>(out: &mut W) -> io::Result<()> {
    lines(
        out,
        &[
            Case::at("message of 150", b"\x08\x96\x01", 0),
            Case::at("message of 150, then", b"\x08\x96\x01", 3),
            Case::at("message of a string", b"\x12\x07testing", 0),
            Case::at("message of a string, then", b"\x12\x07testing", 9),
        ],
        whole,
    )?;
    lines(
        out,
        &[Case::at("string", b"\x12\x07testing", 1)],
        |case| inside(case, Text),
    )?;
    lines(
        out,
        &[Case::at("message of a message", b"\x1A\x03\x08\x96\x01", 0)],
        whole,
    )?;
    lines(
        out,
        &[Case::at("message inside", b"\x1A\x03\x08\x96\x01", 1)],
        |case| inside(case, |part| field_at(part, 0)),
    )?;
    lines(
        out,
        &[
            Case::at(
                "message of a packed field",
                b"\x32\x06\x03\x8E\x02\x9E\xA7\x05",
                0,
            ),
            Case::at("message of nothing", b"", 0),
        ],
        whole,
    )
}

// A varint keeps its raw bytes, overlong ones too: they are a column of one value.
fn raw_varints<W: Write>(out: &mut W) -> io::Result<()> {
    lines(
        out,
        &[
            Case::at("raw varint 150", b"\x08\x96\x01", 1),
            Case::at("raw varint overlong", b"\x80\x80\x00", 0),
            Case::at("raw varint cut", b"\x96", 0),
            Case::at(
                "raw varint ten FF",
                b"\xFF\xFF\xFF\xFF\xFF\xFF\xFF\xFF\xFF\xFF",
                0,
            ),
            Case::at("raw varint behind the end", b"\x96\x01", 3),
        ],
        |case| payload_at(case, read_raw_varint),
    )
}

// A length may count up to the end of the bytes and none more, however large it is.
fn lengths<W: Write>(out: &mut W) -> io::Result<()> {
    lines(
        out,
        &[
            Case::at("length 7", b"\x07testing", 0),
            Case::at("length 0", b"\x00", 0),
            Case::at("length overlong", b"\x82\x00hi", 0),
            Case::at("length one too long", b"\x07testin", 0),
            Case::at(
                "length 2^64-1",
                b"\xFF\xFF\xFF\xFF\xFF\xFF\xFF\xFF\xFF\x01",
                0,
            ),
            Case::at("length cut", b"\x87", 0),
            Case::at("length missing", b"", 0),
            Case::at(
                "length ten FF",
                b"\xFF\xFF\xFF\xFF\xFF\xFF\xFF\xFF\xFF\xFF",
                0,
            ),
            Case::at("length behind the end", b"\x00", 2),
        ],
        |case| payload_at(case, read_len_delimited),
    )
}

// The fixed sizes, each whole and one byte short; the types that have no payload; a place behind the end, with a type that no tag says.
fn types<W: Write>(out: &mut W) -> io::Result<()> {
    lines(
        out,
        &[
            Case::at("fixed32", b"\x0D\x01\x02\x03\x04", 0),
            Case::at("fixed32 one byte short", b"\x0D\x01\x02\x03", 0),
            Case::at("fixed64", b"\x09\x01\x02\x03\x04\x05\x06\x07\x08", 0),
            Case::at(
                "fixed64 one byte short",
                b"\x09\x01\x02\x03\x04\x05\x06\x07",
                0,
            ),
            Case::at("group", b"\x0B\x08\x96\x01\x0C", 0),
            Case::at("end of a group", b"\x0C", 0),
            Case::at("type 6", b"\x0E", 0),
            Case::at("type 7", b"\x0F", 0),
        ],
        whole,
    )?;
    lines(
        out,
        &[Case::at("payload of type 0 behind the end", b"", 1)],
        |case| payload_at(case, |s, at| read_payload(s, at, 1, 0)),
    )?;
    lines(
        out,
        &[Case::at("payload of type 3 behind the end", b"", 1)],
        |case| payload_at(case, |s, at| read_payload(s, at, 1, 3)),
    )?;
    lines(
        out,
        &[Case::at("payload of type 6 behind the end", b"", 1)],
        |case| payload_at(case, |s, at| read_payload(s, at, 1, 6)),
    )
}

pub(crate) fn run<W: Write>(out: &mut W) -> io::Result<()> {
    messages(out)?;
    raw_varints(out)?;
    lengths(out)?;
    types(out)
}
