// Payloads: what stands behind a tag.
ghost use Rattle.std.specs.Prelude.{◌≡◌, ◌-◌, ◌≤◌, length};
ghost use Rattle.message.specs.Payload.{payload_of, raw_varint, length_delimited, payload, passed, group_by, fixed, value_by};
ghost use Rattle.protobuf.specs.Tag.{wire_type, tag_by};
ghost use Rattle.message.specs.Answers.{past};

use crate::open::Open;
use protobuf::refusal::Refusal;
use protobuf::tag::{EGROUP, I32, I64, LEN, SGROUP, VARINT, read_tag};
use protobuf::varint::read_varint;

// The number that was read (0 where it is no varint and no length), and where the raw bytes stand.
#[derive(Clone, Copy, Debug, PartialEq, Eq)]
pub struct Payload {
    pub value: u64,
    pub start: usize,
    pub len: usize,
}

impl Payload {
    // The payload from `start` up to `next`, with that place.
    pub(crate) fn up_to(value: u64, start: usize, next: usize) -> (Payload, usize)
        requires { start ≤ next }
        ensures { result ≡ (payload_of value start (next - start), next) }
    {
        let len = next - start;
        (Payload { value, start, len }, next)
    }
}

// A varint with its raw bytes, which are a column of one value: 2, 3 and 14 as `read_varint`.
pub fn read_raw_varint(s: &[u8], at: usize) -> Result<(Payload, usize), Refusal>
    ensures { result ≡ raw_varint s.now at }
{
    // `let .. else`, since a varint's refusal is handed up at once by each reader of bytes (docs/DECISIONS.md).
    let r = read_varint(s, at);
    let Ok((value, next)) = r else {
        return Err(r.unwrap_err());
    };
    Ok(Payload::up_to(value, at, next))
}

// The bytes that a varint length counts: 2, 3 and 14 as `read_varint`, 6 where they pass the end.
pub fn read_len_delimited(s: &[u8], at: usize) -> Result<(Payload, usize), Refusal>
    ensures { result ≡ length_delimited s.now at }
{
    // `let .. else`, since a varint's refusal is handed up at once by each reader of bytes (docs/DECISIONS.md).
    let r = read_varint(s, at);
    let Ok((value, start)) = r else {
        return Err(r.unwrap_err());
    };
    let len = value as usize;
    if s.len() - start < len {
        return Err(Refusal::PastEnd);
    }
    Ok(Payload::up_to(value, start, start + len))
}

// `n` bytes of a fixed size.
fn read_fixed(s: &[u8], at: usize, n: usize) -> Result<(Payload, usize), Refusal>
    requires { at ≤ length s.now }
    ensures { result ≡ fixed n s.now at }
{
    if s.len() - at < n {
        return Err(Refusal::PastEnd);
    }
    Ok(Payload::up_to(0, at, at + n))
}

// A payload where no group may be opened.
// Each arm binds what its case alone has.
fn read_single(s: &[u8], at: usize, wire: u32) -> Result<(Payload, usize), Refusal>
    requires { at ≤ length s.now }
    ensures { result ≡ value_by (group_by 0 s.now) s.now (wire_type wire) 0 at }
{
    match wire {
        VARINT => read_raw_varint(s, at),
        I64 => read_fixed(s, at, 8),
        LEN => read_len_delimited(s, at),
        SGROUP => Err(Refusal::GroupDepth),
        I32 => read_fixed(s, at, 4),
        _ => Err(Refusal::WireType),
    }
}

// Past a group of `field` whose start tag ends at `at`, up to and with its own end tag. The groups that are open stand one in the other:
// `innermost` is the number of the one whose end comes next, and `around` has those of the others.
fn skip_group(s: &[u8], at: usize, field: u32) -> Result<usize, Refusal>
    requires { at ≤ length s.now }
    ensures { past result ≡ group_by 16 s.now field at }
{
    let mut around = Open::new();
    let mut innermost = field;
    let mut i = at;
    loop {
        let Some((tag, next)) = read_tag(s, i)? else {
            return Err(Refusal::PastEnd);
        };
        match tag.wire {
            EGROUP => {
                if innermost != tag.field {
                    return Err(Refusal::WireType);
                }
                let Some(number) = around.pop() else {
                    return Ok(next);
                };
                innermost = number;
                i = next;
            }
            SGROUP => {
                if around.is_full() {
                    return Err(Refusal::GroupDepth);
                }
                around.push(innermost);
                innermost = tag.field;
                i = next;
            }
            _ => {
                let (_, behind) = read_single(s, next, tag.wire)?;
                i = behind;
            }
        }
    }
}

// What stands behind a tag of `field` and `wire`, with the place behind it: 14 where `at` is behind the end, then 2, 3 and 6 of a varint, a
// length or a fixed size, 5 for an end tag and for the types 6 and 7, and 2 to 7 of a skipped group.
pub fn read_payload(s: &[u8], at: usize, field: u32, wire: u32) -> Result<(Payload, usize), Refusal>
    ensures { result ≡ payload s.now (tag_by field wire) at }
{
    if s.len() < at {
        return Err(Refusal::Outside);
    }
    if wire != SGROUP {
        return read_single(s, at, wire);
    }
    let next = skip_group(s, at, field)?;
    Ok(Payload::up_to(0, at, next))
}

// The place behind what stands behind a tag of `field` and `wire`, with the refusals of `read_payload`.
pub fn skip_field(s: &[u8], at: usize, field: u32, wire: u32) -> Result<usize, Refusal>
    ensures { past result ≡ passed (payload s.now (tag_by field wire) at) }
{
    let (_, next) = read_payload(s, at, field, wire)?;
    Ok(next)
}
