// What a line is made of: the case (its label, its bytes in hexadecimal, the place where the reader starts) and, behind an arrow, what the
// reader answers. An answer is a value that says itself by `Display`; a refusal is said by its number in document 01's table.
use protobuf::refusal::Refusal;
use std::io::Write;
use std::{fmt, io};

// Where a reader starts, as the line says it: at the first of the bytes, at a place, or from a place up to an end.
#[derive(Clone, Copy)]
enum Place {
    First,
    At(usize),
    Between(usize, usize),
}

impl fmt::Display for Place {
    fn fmt<W: fmt::Write>(&self, f: &mut fmt::Formatter<W>) -> fmt::Result {
        match self {
            Place::First => Ok(()),
            Place::At(at) => write!(f, " at {at}"),
            Place::Between(at, end) => write!(f, " from {at} up to {end}"),
        }
    }
}

// What a reader is given, and the label of its line.
#[derive(Clone, Copy)]
pub(crate) struct Case<'a> {
    label: &'a str,
    pub(crate) bytes: &'a [u8],
    place: Place,
}

impl<'a> Case<'a> {
    pub(crate) fn new(label: &'a str, bytes: &'a [u8]) -> Self {
        let place = Place::First;
        Case {
            label,
            bytes,
            place,
        }
    }

    pub(crate) fn at(label: &'a str, bytes: &'a [u8], at: usize) -> Self {
        let place = Place::At(at);
        Case {
            label,
            bytes,
            place,
        }
    }

    pub(crate) fn between(label: &'a str, bytes: &'a [u8], at: usize, end: usize) -> Self {
        let place = Place::Between(at, end);
        Case {
            label,
            bytes,
            place,
        }
    }

    pub(crate) fn start(self) -> usize {
        match self.place {
            Place::First => 0,
            Place::At(at) => at,
            Place::Between(at, _) => at,
        }
    }

    pub(crate) fn end(self) -> usize {
        match self.place {
            Place::Between(_, end) => end,
            _ => self.bytes.len(),
        }
    }
}

impl fmt::Display for Case<'_> {
    fn fmt<W: fmt::Write>(&self, f: &mut fmt::Formatter<W>) -> fmt::Result {
        write!(f, "{}:{}{}", self.label, Hex(self.bytes), self.place)
    }
}

// Bytes in hexadecimal, a space before each.
#[derive(Clone, Copy)]
pub(crate) struct Hex<'a>(pub(crate) &'a [u8]);

impl fmt::Display for Hex<'_> {
    fn fmt<W: fmt::Write>(&self, f: &mut fmt::Formatter<W>) -> fmt::Result {
        for byte in self.0 {
            write!(f, " {byte:02x}")?;
        }
        Ok(())
    }
}

// What a reader answers: a value, or the refusal.
#[derive(Clone, Copy)]
pub(crate) struct Answer<T>(pub(crate) Result<T, Refusal>);

impl<T: fmt::Display> fmt::Display for Answer<T> {
    fn fmt<W: fmt::Write>(&self, f: &mut fmt::Formatter<W>) -> fmt::Result {
        match &self.0 {
            Ok(value) => write!(f, "{value}"),
            Err(refusal) => write!(f, " refused {}", u32::from(*refusal)),
        }
    }
}

// What stands where a field may begin: a value, or the end of the message.
#[derive(Clone, Copy)]
pub(crate) struct Found<T>(pub(crate) Option<T>);

impl<T: fmt::Display> fmt::Display for Found<T> {
    fn fmt<W: fmt::Write>(&self, f: &mut fmt::Formatter<W>) -> fmt::Result {
        match &self.0 {
            Some(value) => write!(f, "{value}"),
            None => f.write_str(" done"),
        }
    }
}

// A line for each case, with what `read` answers to it.
pub(crate) fn lines<'a, W: Write, A: fmt::Display + Drop, F: Fn(Case<'a>) -> A>(
    out: &mut W,
    cases: &[Case<'a>],
    read: F,
) -> io::Result<()>
    requires { F.IsAlwaysCallable read }
{
    for case in cases {
        let answer = read(*case);
        writeln!(out, "{case} ->{answer}")?;
    }
    Ok(())
}
