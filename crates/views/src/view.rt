// What the six views share. A view is a schema, the match that is that schema, and the names of its slots; the loop that fills the slots, and
// what is read of a part of the bytes, are one for all. The slots stand in an array that is lent to the loop, so that no message copies it. A
// field's place in it is its number, but that of field 20 is `PLACE_20`.
ghost use Rattle.std.specs.Prelude.{◌≡◌, ◌+◌, ◌^◌, ◌<◌, ℕ, true, length, set, replicate};
ghost use Rattle.protobuf.specs.Tag.{split};
ghost use Rattle.fields.specs.Outcome.{each};
ghost use Rattle.fields.specs.View.{Schema, Slots, view, view_in, moved_slots};
ghost use Rattle.fields.specs.Slot.{rule_by, rule_for};
ghost use Rattle.views.specs.Slots.{has_room, empty_slot, slot_at, slots_of};

use fields::part::{NONE, Part, part_fits};
use fields::slot::{Rule, Slot, put_slot};
use message::field::next_field;
use message::payload::Payload;
use protobuf::refusal::Refusal;

// How many slots suffice for every message.
pub const PLACES: usize = 11;

// A place that no field here has by its number.
pub(crate) const PLACE_20: usize = 7;

// The slot of a field that was not read.
const EMPTY: Slot = Slot {
    value: 0,
    part: NONE,
};

pub trait View {
    ghost schema: { Schema };

    // What is handed out of a message's slots, whose parts are parts of the bytes around it.
    ghost of: { Slots → Self };

    // The same of slots whose parts are parts of the message, which begins at a place.
    ghost at: { ℕ → Slots → Self };

    // What the view makes of a field, by its number with its wire type; any other pair is passed over.
    fn rule(tag: u32) -> Option<Rule>
        ensures { rule_by result ≡ rule_for schema (split tag) };

    // The slots by name and type.
    fn of(slots: &[Slot; PLACES]) -> Self
        ensures { result ≡ of (slots_of slots.now) };

    // Each field's place is in the array.
    ghost room: { has_room schema ≡ true };

    ghost moved: { (base : ℕ) (slots : Slots) → of (moved_slots base slots) ≡ at base slots };

    // The message in `len` bytes from `start`, its parts as parts of the buffer: 14 where they pass the buffer, then the stream's refusals, 9
    // for a second column that is not empty, 10 for a second such info. Of numbers and of bytes the last ones stand.
    final fn parse(buffer: &[u8], start: usize, len: usize) -> Result<Self, Refusal>
        ensures { result ≡ each (at start) (view_in schema buffer.now start len) }
    {
        if !part_fits(buffer.len(), start, len) {
            return Err(Refusal::Outside);
        }
        let end = start + len;
        let mut slots = [EMPTY; PLACES];
        fill::<Self>(&buffer[start..end], start, &mut slots)?;
        Ok(Self::of(&slots))
    }
}

// The part at a place. Here and below slots are read and written number by number: a copy of the whole would take along the bytes between
// `present` and `start`, which are nothing, and is slow.
pub(crate) fn part_in(slots: &[Slot; PLACES], k: usize) -> Part
    requires { k < 11 }
    ensures { result ≡ (slot_at slots.now k).part }
{
    Part {
        present: slots[k].part.present,
        start: slots[k].part.start,
        len: slots[k].part.len,
    }
}

// The slot at a place.
pub(crate) fn slot_in(slots: &[Slot; PLACES], k: usize) -> Slot
    requires { k < 11 }
    ensures { result ≡ slot_at slots.now k }
{
    Slot {
        value: slots[k].value,
        part: part_in(slots, k),
    }
}

// Puts a slot at a place. An array that is lent to be changed does not tell its length, so that is asked for.
fn store(slots: &mut [Slot; PLACES], k: usize, x: Slot)
    requires { (k < 11) × (length slots.old ≡ 11) }
    ensures { slots.new ≡ set slots.old k x }
{
    let part = Part {
        present: x.part.present,
        start: x.part.start,
        len: x.part.len,
    };
    slots[k] = Slot {
        value: x.value,
        part,
    };
}

// The fields of a message that begins at `base`, one after the other, into slots that are empty before.
fn fill<V: View>(s: &[u8], base: usize, slots: &mut [Slot; PLACES]) -> Result<(), Refusal>
    requires { (base + length s.now < 2 ^ 64) × (slots.old ≡ replicate 11 empty_slot) }
    ensures { each (λ _. slots_of slots.new) result ≡ each (moved_slots base) (view V.schema s.now) }
{
    let mut at = 0;
    while let Some((field, next)) = next_field(s, at)? {
        if let Some(rule) = V::rule(field.tag) {
            let k = rule.place();
            let raw = Payload {
                value: field.value,
                start: base + field.start,
                len: field.len,
            };
            let x = put_slot(Some(rule), slot_in(slots, k), raw)?;
            store(slots, k, x);
        }
        at = next;
    }
    Ok(())
}
