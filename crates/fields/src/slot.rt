// A field's slot: the number that was read last and the part that stands for the field; and what one occurrence of the field does to it.
ghost use Rattle.std.specs.Prelude.{◌≡◌};
ghost use Rattle.fields.specs.View.{column, submessage, put, slot_by};
ghost use Rattle.fields.specs.Part.{part_by};
ghost use Rattle.fields.specs.Slot.{put_for, place_of, place_for};

use crate::part::Part;
use message::payload::Payload;
use protobuf::refusal::Refusal;

// The number that was read last, and the part that stands for the field.
#[derive(Clone, Copy)]
pub struct Slot {
    pub value: u64,
    pub part: Part,
}

// What a view makes of a field that it takes, and the place of its slot.
#[derive(Clone, Copy)]
pub enum Rule {
    Scalar(usize),
    Column(usize),
    Message(usize),
    Bytes(usize),
}

impl Rule {
    // The place that it names.
    pub fn place(self) -> usize
        ensures { result ≡ place_of self }
    {
        match self {
            Rule::Scalar(k) => k,
            Rule::Column(k) => k,
            Rule::Message(k) => k,
            Rule::Bytes(k) => k,
        }
    }
}

// The slot of a field that was read: its number, and the raw bytes as its part.
fn read_slot(raw: Payload) -> Slot
    ensures { result ≡ slot_by raw.value (part_by raw.start raw.len) }
{
    let part = Part {
        present: true,
        start: raw.start,
        len: raw.len,
    };
    Slot {
        value: raw.value,
        part,
    }
}

// An occurrence of a column: an empty one is ignored, and 9 where there was one that is not.
#[tactic(auto, unfolding(crate::specs::View::put, crate::specs::View::column_part, crate::specs::Outcome::each))]
fn put_column(old: Slot, raw: Payload) -> Result<Slot, Refusal>
    ensures { result ≡ put column old raw }
{
    if raw.len == 0 {
        return Ok(Slot {
            value: raw.value,
            ..old
        });
    }
    if old.part.present {
        return Err(Refusal::SecondColumn);
    }
    Ok(read_slot(raw))
}

// An occurrence of an Info: it replaces an empty one; behind one that is not, an empty one is ignored, and another is 10.
#[tactic(auto, unfolding(crate::specs::View::put, crate::specs::View::info_part, crate::specs::Outcome::each))]
fn put_message(old: Slot, raw: Payload) -> Result<Slot, Refusal>
    ensures { result ≡ put submessage old raw }
{
    if old.part.len == 0 {
        return Ok(read_slot(raw));
    }
    if raw.len == 0 {
        return Ok(Slot {
            value: raw.value,
            ..old
        });
    }
    Err(Refusal::SecondInfo)
}

// One field's slot, by what a view makes of the field: of a number or of bytes, the last one stands, and a field that is passed over leaves it
// as it was.
// Each arm binds what its case alone has.
#[tactic(auto, unfolding(crate::specs::View::put))]
pub fn put_slot(rule: Option<Rule>, old: Slot, raw: Payload) -> Result<Slot, Refusal>
    ensures { result ≡ put_for rule old raw }
{
    match rule {
        None => Ok(old),
        Some(Rule::Column(_)) => put_column(old, raw),
        Some(Rule::Message(_)) => put_message(old, raw),
        Some(Rule::Scalar(_)) => Ok(read_slot(raw)),
        Some(Rule::Bytes(_)) => Ok(read_slot(raw)),
    }
}

// The place that a view's answer names: of a field that is passed over, 0, which no field has.
pub fn place(rule: Option<Rule>) -> usize
    ensures { result ≡ place_for rule }
{
    match rule {
        None => 0,
        Some(named) => named.place(),
    }
}
