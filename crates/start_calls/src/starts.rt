// The states before an element's references, tags and members, from the element's bytes as they passed through C.
ghost use Rattle.std.specs.Prelude.{◌≡◌, ◌*◌, ◌≤◌, Bool, length, leb};
ghost use Rattle.numbers.specs.Choose.{choose};
ghost use Rattle.numbers.specs.Little.{number_at};
ghost use Rattle.columns.specs.InStep.{start_of};
ghost use Rattle.answers.specs.Words.{filled};
ghost use Rattle.answers.specs.Codes.{code_of, code_by};
ghost use Rattle.start_calls.specs.Starts.{part_at, kind_in, refs_start_in, columns_start_in, tags_start_in, members_start_in, refs_width, tags_width, members_width, started_by};

use crate::kind::ElementKind;
use answers::codes::Stop;
use calls::references::RefState;
use calls::slot::{Slot, column_in};
use columns::reader::start_column;
use columns::sums::Sum;
use columns::zip::{MemberColumns, TagColumns};
use elements::members::RelMemberIter;
use elements::references::WayRefIter;
use elements::tags::TagIter;
use fields::part::Part;
use layouts::element::ELEMENT;
use member_calls::members::MemberState;
use numbers::little::Little;
use protobuf::column::Column;
use protobuf::refusal::Refusal;
use tag_calls::tags::TagState;

// Whether the first number of a part says that it is present or that it is not.
fn is_part(element: &[u8], at: usize) -> bool
    ensures { result ≡ leb (number_at 8 element.now at) 1 }
{
    u64::read(element, at) <= 1
}

// The reader at the start of a part, whose numbers stand in an element and not in a slot.
fn start_at(element: &[u8], at: usize) -> Column
    requires { at ≤ 160 }
    ensures { result ≡ start_of (part_at element.now at) }
{
    start_column(Part {
        present: u64::read(element, at) == 1,
        start: u64::read(element, at + 8) as usize,
        len: u64::read(element, at + 16) as usize,
    })
}

// The kind of an element: 14 where the slice is too short for one, or its first number is no kind.
fn kind_in(element: &[u8]) -> Result<ElementKind, Refusal>
    ensures { result ≡ kind_in element.now }
{
    if element.len() < ELEMENT {
        return Err(Refusal::Outside);
    }
    ElementKind::try_from(u64::read(element, 0))
}

// The state before an element's references: the ended one where it has none, as all but a way.
pub fn refs_of(element: &[u8]) -> Result<WayRefIter, Refusal>
    ensures { result ≡ refs_start_in element.now }
{
    match kind_in(element)? {
        ElementKind::Way => {
            if !is_part(element, 112) {
                return Err(Refusal::Outside);
            }
            Ok(WayRefIter::Refs(Sum {
                column: start_at(element, 112),
                sum: 0,
            }))
        }
        _ => Ok(WayRefIter::Ended),
    }
}

// From keys and vals at their places.
fn tags_of_columns(element: &[u8], keys: usize, vals: usize) -> Result<TagIter, Refusal>
    requires { (keys ≤ 160) × (vals ≤ 160) }
    ensures { result ≡ columns_start_in element.now keys vals }
{
    if !is_part(element, keys) {
        return Err(Refusal::Outside);
    }
    if !is_part(element, vals) {
        return Err(Refusal::Outside);
    }
    Ok(TagIter::Columns(TagColumns {
        keys: start_at(element, keys),
        vals: start_at(element, vals),
    }))
}

// The state before an element's tags, which every kind has.
pub fn tags_of(element: &[u8]) -> Result<TagIter, Refusal>
    ensures { result ≡ tags_start_in element.now }
{
    match kind_in(element)? {
        ElementKind::DenseNode => Ok(TagIter::KeysVals(column_in(element, 56, 64))),
        ElementKind::Node => tags_of_columns(element, 56, 80),
        _ => tags_of_columns(element, 40, 64),
    }
}

// Whether all three parts of a relation's members are ones.
fn are_parts(element: &[u8]) -> bool
    ensures { result ≡ choose (leb (number_at 8 element.now 112) 1) (choose (leb (number_at 8 element.now 136) 1) (leb (number_at 8 element.now 160) 1) Bool.false) Bool.false }
{
    is_part(element, 112) && is_part(element, 136) && is_part(element, 160)
}

// The state before an element's members: the ended one where it has none, as all but a relation.
pub fn members_of(element: &[u8]) -> Result<RelMemberIter, Refusal>
    ensures { result ≡ members_start_in element.now }
{
    match kind_in(element)? {
        ElementKind::Relation => {
            if !are_parts(element) {
                return Err(Refusal::Outside);
            }
            Ok(RelMemberIter::Members(MemberColumns {
                roles: start_at(element, 112),
                memids: Sum {
                    column: start_at(element, 136),
                    sum: 0,
                },
                types: start_at(element, 160),
            }))
        }
        _ => Ok(RelMemberIter::Ended),
    }
}

// A slot of which every state takes the whole width.
pub trait Whole: Slot {
    ghost whole: { (w : Self.State) → 8 * length (Self.words w) ≡ Self.WIDTH };
}

impl Whole for RefState {
    ghost whole = { refs_width };
}

impl Whole for TagState {
    ghost whole = { tags_width };
}

impl Whole for MemberState {
    ghost whole = { members_width };
}

// The state at a start goes into the slot: 14 where the slot is too short, and behind a refusal the ended state.
pub fn start<S: Whole>(slot: &mut [u8], state: Result<S::State, Refusal>) -> Result<(), Stop>
    ensures code { code_by result ≡ choose (leb S.WIDTH (length slot.old)) (code_of state) 14 }
    ensures next { slot.new ≡ filled slot.old (S.words (started_by S.over state)) }
    ensures back { S.WIDTH ≤ length slot.old → S.state_at slot.new ≡ started_by S.over state }
{
    if slot.len() < S::WIDTH {
        return Err(Stop::OUTSIDE);
    }
    match state {
        Err(refusal) => {
            S::put_state(slot, S::over());
            Err(Stop::Refused(refusal))
        }
        Ok(start) => {
            S::put_state(slot, start);
            Ok(())
        }
    }
}
