// Columns (Protocol Buffers, "Packed Repeated Fields"): each value with the place behind it, up to the end. The steps go on from the state
// that a refusal hands back too, which shows that it is an ended one.
use crate::out::{Answer, Case, lines};
use message::payload::read_len_delimited;
use numbers::signed::Signed;
use protobuf::column::{Column, Step, next_value};
use std::io::Write;
use std::{fmt, io};

// The steps of a column of `s`. Each value takes a byte at least, so no column has more steps than bytes, but for a refused one and the one
// that says ended.
#[derive(Clone, Copy)]
struct Steps<'a> {
    s: &'a [u8],
    column: Column,
}

impl fmt::Display for Steps<'_> {
    fn fmt<W: fmt::Write>(&self, f: &mut fmt::Formatter<W>) -> fmt::Result {
        let mut column = self.column;
        for _ in 0..self.s.len() + 2 {
            let Step { said, next } = next_value(self.s, column);
            match said {
                Ok(Some(value)) => write!(f, " {value} (next {}),", next.at)?,
                Ok(None) => return f.write_str(" ended"),
                Err(refusal) => write!(f, " refused {},", u32::from(refusal))?,
            }
            column = next;
        }
        Ok(())
    }
}

fn column(case: Case<'_>) -> Steps<'_> {
    Steps {
        s: case.bytes,
        column: Column {
            at: case.start(),
            end: case.end(),
        },
    }
}

// The column that a length-delimited field holds. The place is the one behind its tag.
fn packed(case: Case<'_>) -> Answer<Steps<'_>> {
    let s = case.bytes;
    let read = read_len_delimited(s, case.start());
    Answer(read.map(|(raw, end)| Steps {
        s,
        column: Column { at: raw.start, end },
    }))
}

// The sums of a whole column of sint64 differences, which wrap, and of which each takes a byte at least.
#[derive(Clone, Copy)]
struct Sums<'a>(&'a [u8]);

impl fmt::Display for Sums<'_> {
    fn fmt<W: fmt::Write>(&self, f: &mut fmt::Formatter<W>) -> fmt::Result {
        let end = self.0.len();
        let mut column = Column { at: 0, end };
        let mut sum = 0;
        for _ in 0..end {
            let Step { said, next } = next_value(self.0, column);
            let Ok(Some(value)) = said else {
                break;
            };
            sum = sum.plus(i64::of_zigzag(value));
            write!(f, " {sum}")?;
            column = next;
        }
        Ok(())
    }
}

fn summed(case: Case<'_>) -> Sums<'_> {
    Sums(case.bytes)
}

// The text's packed field: 3, 270 and 86942.
fn whole<W: Write>(out: &mut W) -> io::Result<()> {
    lines(
        out,
        &[
            Case::at("packed", b"\x32\x06\x03\x8E\x02\x9E\xA7\x05", 1),
            Case::at("packed empty", b"\x32\x00", 1),
            Case::at("packed one byte short", b"\x32\x06\x03\x8E\x02\x9E\xA7", 1),
        ],
        packed,
    )?;
    lines(
        out,
        &[
            Case::between("column of nothing", b"", 0, 0),
            Case::between("column of one", b"\x96\x01", 0, 2),
            Case::between("column from inside", b"\x03\x8E\x02", 1, 3),
            Case::between("column at its end", b"\x03\x8E\x02", 1, 1),
        ],
        column,
    )
}

// A varint may pass neither the bytes nor the column's end, and a state must be inside the bytes.
fn cut<W: Write>(out: &mut W) -> io::Result<()> {
    lines(
        out,
        &[
            Case::between("column cut", b"\x03\x8E", 0, 2),
            Case::between("column cut by its end", b"\x03\x8E\x02", 0, 2),
            Case::between(
                "column of ten FF",
                b"\xFF\xFF\xFF\xFF\xFF\xFF\xFF\xFF\xFF\xFF",
                0,
                10,
            ),
            Case::between("column that passes the bytes", b"\x03", 0, 2),
            Case::between("column behind its end", b"\x03", 1, 0),
        ],
        column,
    )
}

// Document 01's examples 7 and 8: references, and ids whose second sum wraps.
fn differences<W: Write>(out: &mut W) -> io::Result<()> {
    lines(
        out,
        &[
            Case::new("sums of references", b"\x02\x02\x01"),
            Case::new(
                "sums of ids",
                b"\xFE\xFF\xFF\xFF\xFF\xFF\xFF\xFF\xFF\x01\x02",
            ),
        ],
        summed,
    )
}

pub(crate) fn run<W: Write>(out: &mut W) -> io::Result<()> {
    whole(out)?;
    cut(out)?;
    differences(out)
}
