// The questions on the leaf: a varint, a field, a column.
use crate::answer::{ROOM, Said, Text, accept, refuse, say, stop_steps};
use message::field::{Field, next_field};
use numbers::signed::Signed;
use protobuf::column::{Column, read_value};
use protobuf::tag::VARINT;
use protobuf::varint::read_varint;
use std::fmt;
use std::fmt::Write;

// The varint at a place.
pub(crate) fn ask_varint(text: &mut Text, s: &[u8], at: usize) -> Said {
    match read_varint(s, at) {
        Ok((value, next)) => accept(text, format_args!("{value} {next}")),
        Err(refusal) => refuse(text, refusal),
    }
}

// A field that was read. The number of its payload is 0 unless it is a varint.
fn put_field(text: &mut Text, field: Field, next: usize) -> Said {
    let wire = field.tag % 8;
    let value = if wire == VARINT { field.value } else { 0 };
    write!(text, " 0 {} {wire} {value}", field.tag / 8)?;
    say(text, format_args!("{} {} {next}", field.start, field.len))
}

// The field that is due at a place. Where the message is complete there is none, and the answer is what its tag's varint gives there.
pub(crate) fn ask_field(text: &mut Text, s: &[u8], at: usize) -> Said {
    match next_field(s, at) {
        Ok(None) => ask_varint(text, s, at),
        Ok(Some((field, next))) => put_field(text, field, next),
        Err(no_field) => refuse(text, no_field.into()),
    }
}

// A column's value, raw and by each type.
fn put_value(text: &mut Text, value: u64) -> fmt::Result {
    let low = value % 0x1_0000_0000;
    write!(text, " {value} {} {low}", i32::of_bits(value))?;
    write!(
        text,
        " {} {} {}",
        i64::of_zigzag(value),
        i32::of_zigzag(value),
        u8::from(value != 0)
    )
}

// All bytes as one column, to its end. A column of more values than an answer has room for is cut.
pub(crate) fn ask_column(text: &mut Text, s: &[u8]) -> Said {
    let mut column = Column {
        at: 0,
        end: s.len(),
    };
    for _ in 0..ROOM {
        match read_value(s, column) {
            Ok(None) => return say(text, "."),
            Err(refusal) => return stop_steps(text, refusal),
            Ok(Some((value, next))) => {
                put_value(text, value)?;
                column = next;
            }
        }
    }
    Ok(None)
}
