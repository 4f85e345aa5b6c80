// Columns: varints one after the other, read one at a time. What a column's type makes of each value is in `signed`.
ghost use Rattle.std.specs.Prelude.{◌≡◌, ◌≤◌, length, take};
ghost use Rattle.protobuf.specs.Varint.{varint};
ghost use Rattle.protobuf.specs.Column.{or_cut, step_at};
ghost use Rattle.protobuf.specs.Answers.{over, step_by, told_by};
ghost use Rattle.protobuf.specs.Short.{Short};

use crate::refusal::Refusal;
use crate::varint::read_varint;

// Where a reader of a column stands, and where the column ends. It has ended where the two are equal.
#[derive(Clone, Copy)]
pub struct Column {
    pub at: usize,
    pub end: usize,
}

// What a reader says, and its next state. At the end and behind a refusal that is the state that has ended in every buffer.
#[derive(Clone, Copy)]
pub struct Step {
    pub said: Result<Option<u64>, Refusal>,
    pub next: Column,
}

// The value of a column that ends at `end`, by its varint, which may not pass that end.
// Places count from the start of `s`, here and in the payloads, since they are handed out.
fn long_value(s: &[u8], at: usize, end: usize) -> Result<Option<(u64, Column)>, Refusal>
    requires { end ≤ length s.now }
    ensures { result ≡ step_by end (or_cut (varint (take end s.now) at)) }
{
    // `let .. else`, since a varint's refusal is handed up at once by each reader of bytes (docs/DECISIONS.md).
    let r = read_varint(&s[..end], at);
    let Ok((value, next)) = r else {
        return Err(r.unwrap_err());
    };
    Ok(Some((value, Column { at: next, end })))
}

// The next value of a column with the state behind it, and none at the end: 14 unless the state is inside the bytes (at ≤ end ≤ length), then
// 2 and 3 of the varint, which may not pass the column's end.
#[inline(always)]
pub fn read_value(s: &[u8], column: Column) -> Result<Option<(u64, Column)>, Refusal>
    ensures { result ≡ step_by column.end (step_at s.now column.at column.end) }
{
    let at = column.at;
    let end = column.end;
    if end < at {
        return Err(Refusal::Outside);
    }
    if s.len() < end {
        return Err(Refusal::Outside);
    }
    if at == end {
        return Ok(None);
    }
    // Most values of a map's columns have one byte or two, and a call costs more than reading them.
    let byte = s[at];
    if byte < 128 {
        return Ok(Some((byte as u64, Column { at: at + 1, end })));
    }
    if 2 <= end - at {
        let second = s[at + 1];
        if second < 128 {
            let value = (byte % 128) as u64 + 128 * (second as u64);
            return Ok(Some((value, Column { at: at + 2, end })));
        }
    }
    long_value(s, at, end)
}

// A step that no value is told by: the state behind it has ended in every buffer.
fn ended(said: Result<Option<u64>, Refusal>) -> Step
    ensures { result ≡ record { said = said; next = over } }
{
    let next = Column { at: 0, end: 0 };
    Step { said, next }
}

// The same as a step, for a reader that goes on from whatever state it is handed: a refusal ends it.
pub fn next_value(s: &[u8], column: Column) -> Step
    ensures { result ≡ told_by (step_by column.end (step_at s.now column.at column.end)) }
{
    match read_value(s, column) {
        Err(refusal) => ended(Err(refusal)),
        Ok(None) => ended(Ok(None)),
        Ok(Some((value, next))) => Step {
            said: Ok(Some(value)),
            next,
        },
    }
}

// The next value of a column by a short way, for loops that fall back on `read_value`: where it has at most three bytes, 16 times the value
// and how many bytes it has, else 0. One word comes back in a register, and the way is short enough to stand in its callers' loops.
pub fn short_value(s: &[u8], at: usize, end: usize) -> u64
    ensures { Short (step_at s.now at end) at result }
{
    if s.len() < end {
        return 0;
    }
    if end <= at {
        return 0;
    }
    let first = s[at];
    if first < 128 {
        return 16 * (first as u64) + 1;
    }
    if end - at < 3 {
        return 0;
    }
    let second = s[at + 1];
    if second < 128 {
        return 16 * ((first % 128) as u64 + 128 * (second as u64)) + 2;
    }
    let third = s[at + 2];
    if third < 128 {
        return 16 * ((first % 128) as u64 + 128 * ((second % 128) as u64 + 128 * (third as u64)))
            + 3;
    }
    0
}

// The same where values are often longer: 0 where it is none that sixteen times fits 64 bits.
pub fn wide_value(s: &[u8], at: usize, end: usize) -> u64
    ensures { Short (step_at s.now at end) at result }
{
    if s.len() < end {
        return 0;
    }
    if end <= at {
        return 0;
    }
    let byte = s[at];
    if byte < 128 {
        return 16 * (byte as u64) + 1;
    }
    let Ok((value, next)) = read_varint(&s[..end], at) else {
        return 0;
    };
    let bytes = next - at;
    if 15 < bytes {
        return 0;
    }
    if 0xFFF_FFFF_FFFF_FFFF < value {
        return 0;
    }
    16 * value + (bytes as u64)
}
