// Messages: field after field, the step of every view.
ghost use Rattle.std.specs.Prelude.{◌≡◌, ◌+◌, ◌/◌, ◌%◌, ◌^◌, ◌<◌, Some, Ok};
ghost use Rattle.protobuf.specs.Tag.{split};
ghost use Rattle.message.specs.Message.{with_payload, field_at};
ghost use Rattle.message.specs.Answers.{refusal_in, field_of, field_in, ShortField};

use crate::payload::{Payload, read_payload};
use protobuf::column::wide_value;
use protobuf::refusal::Refusal;
use protobuf::tag::{LEN, VARINT, read_tag};

// A field: its tag, the field number times 8 plus the wire type; its payload's number; and its raw bytes.
#[derive(Clone, Copy, Debug, PartialEq, Eq)]
pub struct Field {
    pub tag: u32,
    pub value: u64,
    pub start: usize,
    pub len: usize,
}

impl Field {
    // A field by its tag and what stands behind it.
    fn of(tag: u32, raw: Payload) -> Field
        ensures { result ≡ record { tag = tag; value = raw.value; start = raw.start; len = raw.len } }
    {
        Field {
            tag,
            value: raw.value,
            start: raw.start,
            len: raw.len,
        }
    }
}

// Why no field can be read: a refusal before the tag is complete, or a tag whose payload is refused.
#[derive(Clone, Copy, Debug, PartialEq, Eq)]
pub enum NoField {
    Cut(Refusal),
    Spoilt { tag: u32, refusal: Refusal },
}

impl From<NoField> for Refusal {
    ghost from_gives = { λ e r. r ≡ refusal_in e };

    fn from(e: NoField) -> Refusal {
        match e {
            NoField::Cut(refusal) => refusal,
            NoField::Spoilt { tag: _, refusal } => refusal,
        }
    }
}

// A field by its tag's value and what its payload gave.
// Its second arm tells the tag of what is spoilt, so it takes no `?`.
fn field_by(
    tag: u32,
    payload: Result<(Payload, usize), Refusal>,
) -> Result<Option<(Field, usize)>, NoField>
    ensures { field_of result ≡ with_payload (split tag) payload }
{
    match payload {
        Err(refusal) => Err(NoField::Spoilt { tag, refusal }),
        Ok((raw, next)) => Ok(Some((Field::of(tag, raw), next))),
    }
}

// The field at `at`, whatever its tag is.
fn any_field(s: &[u8], at: usize) -> Result<Option<(Field, usize)>, NoField>
    ensures { field_of result ≡ field_at s.now at }
{
    match read_tag(s, at) {
        Err(refusal) => Err(NoField::Cut(refusal)),
        Ok(None) => Ok(None),
        Ok(Some((tag, next))) => {
            let payload = read_payload(s, next, tag.field, tag.wire);
            field_by(tag.field * 8 + tag.wire, payload)
        }
    }
}

// A field with a tag of one byte and a number or a length behind it, in one word, which comes back in a register: nearly every field of a map is
// one. Else 0.
fn short_field(s: &[u8], at: usize) -> u64
    ensures { ShortField s.now at result }
{
    if s.len() <= at {
        return 0;
    }
    let tag = s[at];
    if tag < 8 {
        return 0;
    }
    if 128 <= tag {
        return 0;
    }
    let word = wide_value(s, at + 1, s.len());
    if word == 0 {
        return 0;
    }
    // What does not fit into the field's word, or next to 2^64, goes the other way.
    if 0x1_0000_0000_0000 <= word {
        return 0;
    }
    if 0x7FFF_FFFF_FFFF_FFFF < s.len() {
        return 0;
    }
    match (tag % 8) as u32 {
        VARINT => 128 * word + (tag as u64),
        LEN => {
            if ((s.len() - at) as u64) < 1 + word % 16 + word / 16 {
                return 0;
            }
            128 * word + (tag as u64)
        }
        _ => 0,
    }
}

// The field that such a word tells of.
fn field_in(word: u64, at: usize) -> (Field, usize)
    requires { at + 1 + word / 128 % 16 + word / 2048 < 2 ^ 64 }
    ensures { field_of (Ok (Some result)) ≡ field_in word at }
{
    let tag = (word % 128) as u32;
    let value = word / 2048;
    let behind = at + 1 + (word / 128 % 16) as usize;
    if word % 8 == 2 {
        let (raw, next) = Payload::up_to(value, behind, behind + value as usize);
        return (Field::of(tag, raw), next);
    }
    let (raw, next) = Payload::up_to(value, at + 1, behind);
    (Field::of(tag, raw), next)
}

// The field at `at` with the place behind it, or none at the end of the message: 14 where `at` is behind the end, then the tag's refusals,
// then its payload's.
pub fn next_field(s: &[u8], at: usize) -> Result<Option<(Field, usize)>, NoField>
    ensures { field_of result ≡ field_at s.now at }
{
    let word = short_field(s, at);
    if word == 0 {
        return any_field(s, at);
    }
    Ok(Some(field_in(word, at)))
}
