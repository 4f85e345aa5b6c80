// Passing over a field (Protocol Buffers, "Message Structure", "Groups"): the place behind it, or the refusal. A skipped group goes up to its
// own end tag, and sixteen may be open at a time.
use crate::out::{Answer, Case, Found, lines};
use crate::tags::found;
use message::payload::skip_field;
use std::io::Write;
use std::{fmt, io};

// The place behind a field.
#[derive(Clone, Copy)]
struct Past(usize);

impl fmt::Display for Past {
    fn fmt<W: fmt::Write>(&self, f: &mut fmt::Formatter<W>) -> fmt::Result {
        write!(f, " past {}", self.0)
    }
}

// The field whose tag is the first of the bytes.
fn skip(case: Case) -> Answer<Found<Answer<Past>>> {
    found(case.bytes, 0, |tag, next| {
        Answer(skip_field(case.bytes, next, tag.field, tag.wire).map(Past))
    })
}

// A payload at a place, with no tag before it.
fn skip_at(case: Case, wire: u32) -> Answer<Past> {
    Answer(skip_field(case.bytes, case.start(), 1, wire).map(Past))
}

// Each wire type that is no group, whole and cut short.
fn singles<W: Write>(out: &mut W) -> io::Result<()> {
    lines(
        out,
        &[
            Case::new("skip a varint", b"\x08\x96\x01"),
            Case::new("skip a varint that is cut", b"\x08\x96"),
            Case::new(
                "skip a varint of ten FF",
                b"\x08\xFF\xFF\xFF\xFF\xFF\xFF\xFF\xFF\xFF\xFF",
            ),
            Case::new("skip a fixed64", b"\x09\x01\x02\x03\x04\x05\x06\x07\x08"),
            Case::new(
                "skip a fixed64 one byte short",
                b"\x09\x01\x02\x03\x04\x05\x06\x07",
            ),
            Case::new("skip a string", b"\x12\x07testing"),
            Case::new("skip a string one byte short", b"\x12\x07testin"),
            Case::new("skip a length that is missing", b"\x0A"),
            Case::new("skip a length one too long", b"\x0A\x01"),
            Case::new("skip a fixed32", b"\x0D\x01\x02\x03\x04"),
            Case::new("skip a fixed32 one byte short", b"\x0D\x01\x02\x03"),
            Case::new("skip type 4", b"\x0C"),
            Case::new("skip type 6", b"\x0E"),
            Case::new("skip type 7", b"\x0F"),
        ],
        skip,
    )?;
    lines(
        out,
        &[Case::at("skip behind the end", b"\x08", 2)],
        |case| skip_at(case, 0),
    )
}

fn groups<W: Write>(out: &mut W) -> io::Result<()> {
    lines(
        out,
        &[
            Case::new("skip an empty group", b"\x0B\x0C"),
            Case::new("skip a group that goes on", b"\x0B"),
            Case::new("skip a group with another's end", b"\x0B\x14"),
            Case::new("skip a group of a varint", b"\x0B\x08\x96\x01\x0C"),
            Case::new("skip a group of a string", b"\x0B\x12\x02\x0C\x0C\x0C"),
            Case::new(
                "skip a group of a fixed32 and a fixed64",
                b"\x0B\x0D\x0C\x0C\x0C\x0C\x09\x0C\x0C\x0C\x0C\x0C\x0C\x0C\x0C\x0C",
            ),
            Case::new("skip a group of a group", b"\x0B\x13\x14\x0C"),
            Case::new("skip a group closed before its inner", b"\x0B\x13\x0C\x14"),
            Case::new("skip a group and leave the rest", b"\x0B\x0C\x08\x96\x01"),
        ],
        skip,
    )
}

// A refusal inside a group is the refusal of the field there.
fn spoilt_groups<W: Write>(out: &mut W) -> io::Result<()> {
    lines(
        out,
        &[
            Case::new("skip a group of a cut varint", b"\x0B\x08\x96"),
            Case::new("skip a group of a cut tag", b"\x0B\x88"),
            Case::new(
                "skip a group of ten FF",
                b"\x0B\xFF\xFF\xFF\xFF\xFF\xFF\xFF\xFF\xFF\xFF",
            ),
            Case::new("skip a group of field 0", b"\x0B\x07\x0C"),
            Case::new("skip a group of a length too long", b"\x0B\x12\x02\x0C"),
            Case::new("skip a group of type 6", b"\x0B\x0E\x0C"),
        ],
        skip,
    )
}

// Sixteen groups may be open at a time. The seventeenth is refused where it opens, though its end may be there.
fn deep_groups<W: Write>(out: &mut W) -> io::Result<()> {
    lines(
        out,
        &[
            Case::new(
                "skip sixteen groups",
                b"\x0B\x0B\x0B\x0B\x0B\x0B\x0B\x0B\x0B\x0B\x0B\x0B\x0B\x0B\x0B\x0B\x0C\x0C\x0C\x0C\x0C\x0C\x0C\x0C\x0C\x0C\x0C\x0C\x0C\x0C\x0C\x0C",
            ),
            Case::new(
                "skip sixteen groups that go on",
                b"\x0B\x0B\x0B\x0B\x0B\x0B\x0B\x0B\x0B\x0B\x0B\x0B\x0B\x0B\x0B\x0B",
            ),
            Case::new(
                "skip seventeen groups that go on",
                b"\x0B\x0B\x0B\x0B\x0B\x0B\x0B\x0B\x0B\x0B\x0B\x0B\x0B\x0B\x0B\x0B\x0B",
            ),
            Case::new(
                "skip seventeen groups",
                b"\x0B\x0B\x0B\x0B\x0B\x0B\x0B\x0B\x0B\x0B\x0B\x0B\x0B\x0B\x0B\x0B\x0B\x0C\x0C\x0C\x0C\x0C\x0C\x0C\x0C\x0C\x0C\x0C\x0C\x0C\x0C\x0C\x0C\x0C",
            ),
        ],
        skip,
    )
}

pub(crate) fn run<W: Write>(out: &mut W) -> io::Result<()> {
    singles(out)?;
    groups(out)?;
    spoilt_groups(out)?;
    deep_groups(out)
}
