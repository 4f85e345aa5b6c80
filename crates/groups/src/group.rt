// PrimitiveGroup: its dense message, and its messages of one field, one after the other.
ghost use Rattle.std.specs.Prelude.{◌≡◌, false, ◌+◌, ◌/◌, ◌%◌, ◌^◌, ◌<◌, eqb, Err};
ghost use Rattle.numbers.specs.Choose.{choose};
ghost use Rattle.protobuf.specs.Tag.{split};
ghost use Rattle.message.specs.Message.{message, message_from};
ghost use Rattle.message.specs.Answers.{field_by};
ghost use Rattle.fields.specs.Outcome.{each};
ghost use Rattle.fields.specs.Part.{no_part, moved};
ghost use Rattle.groups.specs.Group.{dense_tag, dense_field, dense_from, dense_in, first_part, fresh_iter, message_at, message_step};

use fields::part::{NONE, Part, part_fits};
use fields::schema::primitive_group::DENSE;
use fields::step::Step;
use message::field::{Field, NoField, next_field};
use protobuf::refusal::Refusal;

// Where an iteration over a group's messages of `field` stands: the group's range, and the place in it. The field is the caller's number, any
// that C gives. Two numbers and no Part, since a range is always there; numbers and no slice, since a state passes through C between calls.
#[derive(Clone, Copy)]
pub struct MessagePlace {
    pub start: usize,
    pub len: usize,
    pub at: usize,
    pub field: u32,
}

// Its state: a type of its own, since an Option has no methods but its own.
#[derive(Clone, Copy)]
pub enum WireMessageIter {
    Ended,
    At(MessagePlace),
}

// A part of a message that begins at `base`, as a part of the bytes around it.
fn part_at(base: usize, part: Part) -> Part
    requires { base + part.start < 2 ^ 64 }
    ensures { result ≡ moved base part }
{
    if part.present {
        Part {
            present: true,
            start: base + part.start,
            len: part.len,
        }
    } else {
        NONE
    }
}

// A field's effect on the dense message found so far: 11 where it is a second one.
fn take_dense(found: Part, field: Field) -> Result<Part, Refusal>
    ensures { result ≡ dense_field found (field_by field.tag field.value field.start field.len) }
{
    if field.tag != DENSE {
        return Ok(found);
    }
    if found.present {
        return Err(Refusal::SecondDense);
    }
    Ok(Part {
        present: true,
        start: field.start,
        len: field.len,
    })
}

// The refusal at a tag whose payload is refused: 11 where it is a second dense field, before the payload's own.
fn spoilt_dense(found: Part, tag: u32, refusal: Refusal) -> Refusal
    ensures { Err result ≡ dense_tag found (split tag) (Err refusal) }
{
    if tag != DENSE {
        return refusal;
    }
    if found.present {
        return Refusal::SecondDense;
    }
    refusal
}

// The dense message of the group `s`, as a part of it. A refusal is met arm by arm, since a second dense field's 11 comes before its payload's.
fn dense_part(s: &[u8]) -> Result<Part, Refusal>
    ensures { result ≡ dense_from no_part (message s.now) }
{
    let mut found = NONE;
    let mut at = 0;
    loop {
        match next_field(s, at) {
            Err(NoField::Cut(refusal)) => return Err(refusal),
            Err(NoField::Spoilt { tag, refusal }) => return Err(spoilt_dense(found, tag, refusal)),
            Ok(None) => return Ok(found),
            Ok(Some((field, next))) => {
                found = take_dense(found, field)?;
                at = next;
            }
        }
    }
}

// The dense message of the group in `len` bytes from `start`, as a part of the buffer, not present where the group has none: 14 where the
// group passes the buffer, then the stream's refusals, and 11 at the tag of a second dense field, before its payload's refusal.
pub fn dense(buffer: &[u8], start: usize, len: usize) -> Result<Part, Refusal>
    ensures { result ≡ each (moved start) (dense_in buffer.now start len) }
{
    if !part_fits(buffer.len(), start, len) {
        return Err(Refusal::Outside);
    }
    let end = start + len;
    let found = dense_part(&buffer[start..end])?;
    Ok(part_at(start, found))
}

// Whether a tag is that of a message in `field`.
fn is_message(tag: u32, field: u32) -> bool
    ensures { result ≡ choose (eqb (tag / 8) field) (eqb (tag % 8) 2) false }
{
    tag / 8 == field && tag % 8 == 2
}

// The first message of `field` at `from` or behind it in the group `s`, as a part of it; not present where none comes before the end or a
// wire error.
fn first_part(s: &[u8], from: usize, field: u32) -> Part
    ensures { result ≡ first_part field (message_from s.now from) }
{
    let mut at = from;
    while let Some((found, next)) = next_field(s, at).unwrap_or(None) {
        if is_message(found.tag, field) {
            return Part {
                present: true,
                start: found.start,
                len: found.len,
            };
        }
        at = next;
    }
    NONE
}

// The step of a state that has not ended.
fn step_at(buffer: &[u8], place: MessagePlace) -> Step<Part, WireMessageIter>
    ensures { result ≡ message_at buffer.now place }
{
    let ended = WireMessageIter::Ended;
    if !part_fits(buffer.len(), place.start, place.len) || place.len < place.at {
        return Step {
            said: Err(Refusal::Outside),
            next: ended,
        };
    }
    let end = place.start + place.len;
    let found = first_part(&buffer[place.start..end], place.at, place.field);
    if found.present {
        let at = found.start + found.len;
        return Step {
            said: Ok(Some(part_at(place.start, found))),
            next: WireMessageIter::At(MessagePlace { at, ..place }),
        };
    }
    Step {
        said: Ok(None),
        next: ended,
    }
}

impl WireMessageIter {
    // The state that stands before the messages of `field` in the group of `len` bytes from `start`. It refuses nothing: a step tests the
    // range.
    pub fn new(start: usize, len: usize, field: u32) -> Self
        ensures { result ≡ fresh_iter start len field }
    {
        WireMessageIter::At(MessagePlace {
            start,
            len,
            at: 0,
            field,
        })
    }

    // The next message of the state's field, as a part of the buffer, with the state behind it: 14 where the group passes the buffer or the
    // place passes the group. It says ended where no such message comes before the group's end or a wire error, which it does not tell.
    // Behind ended and behind 14 the state is ended, and a step on it says ended whatever the buffer is. It moves within its place and hands on no
    // column, so it shares no function with the steps of `elements`.
    pub fn step(self, buffer: &[u8]) -> Step<Part, WireMessageIter>
        ensures { result ≡ message_step buffer.now self }
    {
        match self {
            WireMessageIter::Ended => Step {
                said: Ok(None),
                next: self,
            },
            WireMessageIter::At(place) => step_at(buffer, place),
        }
    }
}
