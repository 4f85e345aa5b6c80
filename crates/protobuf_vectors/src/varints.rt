// Varints (Protocol Buffers, "Base 128 Varints"): the value and the place behind it, or the refusal; and what a value means in a field of
// each signed type ("Signed Integers").
use crate::out::{Answer, Case, lines};
use numbers::signed::Signed;
use protobuf::varint::read_varint;
use std::io::Write;
use std::{fmt, io};

// A value, and the place behind its varint.
#[derive(Clone, Copy)]
struct Varint {
    value: u64,
    next: usize,
}

impl fmt::Display for Varint {
    fn fmt<W: fmt::Write>(&self, f: &mut fmt::Formatter<W>) -> fmt::Result {
        write!(f, " {}, next {}", self.value, self.next)
    }
}

fn value_at(case: Case) -> Answer<Varint> {
    Answer(read_varint(case.bytes, case.start()).map(|(value, next)| Varint { value, next }))
}

// What a varint's value means in fields of type int64 and int32.
#[derive(Clone, Copy)]
struct Twos(u64);

impl fmt::Display for Twos {
    fn fmt<W: fmt::Write>(&self, f: &mut fmt::Formatter<W>) -> fmt::Result {
        let value = self.0;
        write!(
            f,
            " {value}, int64 {}, int32 {}",
            i64::of_bits(value),
            i32::of_bits(value)
        )
    }
}

// What a varint's value means in fields of type sint64 and sint32.
#[derive(Clone, Copy)]
struct Zigzag(u64);

impl fmt::Display for Zigzag {
    fn fmt<W: fmt::Write>(&self, f: &mut fmt::Formatter<W>) -> fmt::Result {
        let value = self.0;
        write!(
            f,
            " {value}, sint64 {}, sint32 {}",
            i64::of_zigzag(value),
            i32::of_zigzag(value)
        )
    }
}

// What a varint's value is taken for.
fn value_as<T, F: FnOnce(u64) -> T + Drop>(case: Case, meaning: F) -> Answer<T>
    requires { F.IsAlwaysCallable meaning }
{
    Answer(read_varint(case.bytes, case.start()).map(|(value, _)| meaning(value)))
}

// The text's two numbers, the shortest spellings, longer ones, and places inside the bytes.
fn read<W: Write>(out: &mut W) -> io::Result<()> {
    lines(
        out,
        &[
            Case::at("varint zero", b"\x00", 0),
            Case::at("varint one", b"\x01", 0),
            Case::at("varint 150", b"\x96\x01", 0),
            Case::at("varint 300", b"\xAC\x02", 0),
            Case::at("varint largest of one byte", b"\x7F", 0),
            Case::at("varint behind a tag", b"\x08\x96\x01", 1),
            Case::at("varint and a byte more", b"\x01\xFF", 0),
            Case::at(
                "varint minus two",
                b"\xFE\xFF\xFF\xFF\xFF\xFF\xFF\xFF\xFF\x01",
                0,
            ),
            Case::at("varint overlong zero", b"\x80\x80\x00", 0),
        ],
        value_at,
    )
}

// The tenth byte holds bit 63 alone: what stands above it is dropped, and an eleventh byte is none.
fn long<W: Write>(out: &mut W) -> io::Result<()> {
    lines(
        out,
        &[
            Case::at(
                "varint tenth byte 00",
                b"\xFF\xFF\xFF\xFF\xFF\xFF\xFF\xFF\xFF\x00",
                0,
            ),
            Case::at(
                "varint tenth byte 01",
                b"\xFF\xFF\xFF\xFF\xFF\xFF\xFF\xFF\xFF\x01",
                0,
            ),
            Case::at(
                "varint tenth byte 7F",
                b"\xFF\xFF\xFF\xFF\xFF\xFF\xFF\xFF\xFF\x7F",
                0,
            ),
            Case::at(
                "varint tenth byte 02",
                b"\x80\x80\x80\x80\x80\x80\x80\x80\x80\x02",
                0,
            ),
            Case::at(
                "varint ten FF",
                b"\xFF\xFF\xFF\xFF\xFF\xFF\xFF\xFF\xFF\xFF",
                0,
            ),
            Case::at(
                "varint eleven bytes",
                b"\x80\x80\x80\x80\x80\x80\x80\x80\x80\x80\x00",
                0,
            ),
        ],
        value_at,
    )
}

// Where the bytes end: inside, before a due one, and where the place is already behind them.
fn short<W: Write>(out: &mut W) -> io::Result<()> {
    lines(
        out,
        &[
            Case::at("varint cut", b"\xFF", 0),
            Case::at(
                "varint cut behind nine",
                b"\xFF\xFF\xFF\xFF\xFF\xFF\xFF\xFF\xFF",
                0,
            ),
            Case::at("varint of nothing", b"", 0),
            Case::at("varint at the end", b"\x01", 1),
            Case::at("varint behind the end", b"\x01", 2),
            Case::at("varint behind nothing", b"", 1),
        ],
        value_at,
    )
}

// A negative int32 has the ten bytes of the int64; an int32 keeps the low 32 bits.
fn signed<W: Write>(out: &mut W) -> io::Result<()> {
    lines(
        out,
        &[
            Case::new("int 150", b"\x96\x01"),
            Case::new("int minus two", b"\xFE\xFF\xFF\xFF\xFF\xFF\xFF\xFF\xFF\x01"),
            Case::new("int largest of 32 bits", b"\xFF\xFF\xFF\xFF\x07"),
            Case::new("int one more", b"\x80\x80\x80\x80\x08"),
            Case::new("int 2^32", b"\x80\x80\x80\x80\x10"),
            Case::new(
                "int largest of 64 bits",
                b"\xFF\xFF\xFF\xFF\xFF\xFF\xFF\xFF\x7F",
            ),
            Case::new(
                "int least of 64 bits",
                b"\x80\x80\x80\x80\x80\x80\x80\x80\x80\x01",
            ),
        ],
        |case| value_as(case, Twos),
    )
}

// The text's table: 0, −1, 1, −2 and the ends of 32 bits; and the ends of 64.
fn zigzags<W: Write>(out: &mut W) -> io::Result<()> {
    lines(
        out,
        &[
            Case::new("zigzag 0", b"\x00"),
            Case::new("zigzag 1", b"\x01"),
            Case::new("zigzag 2", b"\x02"),
            Case::new("zigzag 3", b"\x03"),
            Case::new("zigzag 2^32-2", b"\xFE\xFF\xFF\xFF\x0F"),
            Case::new("zigzag 2^32-1", b"\xFF\xFF\xFF\xFF\x0F"),
            Case::new("zigzag 2^32", b"\x80\x80\x80\x80\x10"),
            Case::new("zigzag 2^64-2", b"\xFE\xFF\xFF\xFF\xFF\xFF\xFF\xFF\xFF\x01"),
            Case::new("zigzag 2^64-1", b"\xFF\xFF\xFF\xFF\xFF\xFF\xFF\xFF\xFF\x01"),
        ],
        |case| value_as(case, Zigzag),
    )
}

pub(crate) fn run<W: Write>(out: &mut W) -> io::Result<()> {
    read(out)?;
    long(out)?;
    short(out)?;
    signed(out)?;
    zigzags(out)
}
