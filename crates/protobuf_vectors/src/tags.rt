// Tags (Protocol Buffers, "Message Structure"): the field number, the wire type and the place behind, the end of the message, or the refusal.
use crate::out::{Answer, Case, Found, lines};
use protobuf::tag::{Tag, read_tag};
use std::io::Write;
use std::{fmt, io};

// A tag, and the place behind it.
#[derive(Clone, Copy)]
struct Read {
    tag: Tag,
    next: usize,
}

impl fmt::Display for Read {
    fn fmt<W: fmt::Write>(&self, f: &mut fmt::Formatter<W>) -> fmt::Result {
        write!(
            f,
            " field {}, type {}, next {}",
            self.tag.field, self.tag.wire, self.next
        )
    }
}

// What stands where a field may begin, by its tag and the place behind it.
pub(crate) fn found<T, F: FnOnce(Tag, usize) -> T + Drop>(
    s: &[u8],
    at: usize,
    read: F,
) -> Answer<Found<T>>
    requires { F.IsAlwaysCallable read }
{
    Answer(read_tag(s, at).map(|tag| Found(tag.map(|(tag, next)| read(tag, next)))))
}

fn tag_at(case: Case) -> Answer<Found<Read>> {
    found(case.bytes, case.start(), |tag, next| Read { tag, next })
}

// The tags of the text's messages, and the largest field number with the first and the last type.
fn taken<W: Write>(out: &mut W) -> io::Result<()> {
    lines(
        out,
        &[
            Case::at("tag of a varint", b"\x08", 0),
            Case::at("tag of a string", b"\x12", 0),
            Case::at("tag of a message", b"\x1A", 0),
            Case::at("tag of a packed field", b"\x32", 0),
            Case::at("tag of two bytes", b"\x88\x01", 0),
            Case::at("tag overlong", b"\x88\x00", 0),
            Case::at("tag of the largest field", b"\xF8\xFF\xFF\xFF\x0F", 0),
            Case::at("tag largest", b"\xFF\xFF\xFF\xFF\x0F", 0),
        ],
        tag_at,
    )
}

fn not_taken<W: Write>(out: &mut W) -> io::Result<()> {
    lines(
        out,
        &[
            Case::at("tag of field 0, type 7", b"\x07", 0),
            Case::at("tag of field 0, type 0", b"\x00", 0),
            Case::at("tag above 2^32-1", b"\x80\x80\x80\x80\x10", 0),
            Case::at("tag 2^64-1", b"\xFF\xFF\xFF\xFF\xFF\xFF\xFF\xFF\xFF\x01", 0),
            Case::at("tag cut", b"\x88", 0),
            Case::at("tag ten FF", b"\xFF\xFF\xFF\xFF\xFF\xFF\xFF\xFF\xFF\xFF", 0),
            Case::at("tag behind the end", b"\x08", 2),
            Case::at("tag behind nothing", b"", 1),
        ],
        tag_at,
    )
}

// A message may end where a tag may begin, and only there.
fn done<W: Write>(out: &mut W) -> io::Result<()> {
    lines(
        out,
        &[
            Case::at("tag of nothing", b"", 0),
            Case::at("tag at the end", b"\x08\x96\x01", 3),
        ],
        tag_at,
    )
}

pub(crate) fn run<W: Write>(out: &mut W) -> io::Result<()> {
    taken(out)?;
    not_taken(out)?;
    done(out)
}
