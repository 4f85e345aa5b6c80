// The members of a relation: RelMemberIter of the Rust, roles, memids and types in step. A member is handed out as the number of its role and
// an id by its type; `role_text` gives the role's text. A step refuses a record or columns that are not inside the buffer (14), varints that
// are cut or too long (2, 3), and columns of different counts (12).
ghost use Rattle.std.specs.Prelude.{◌≡◌, List, ℕ, take};
ghost use Rattle.wire.specs.Scan.{Scanned-as};
ghost use Rattle.columns.specs.InStep.{said_by};
ghost use Rattle.elements.specs.Members.{id_by, members_by, members_from, member_said, member_behind, members_start, role_at, role_of};

use crate::element::Element;
use crate::steps::step_of;
use columns::inside::are_members_inside;
use columns::reader::start_column;
use columns::sums::Sum;
use columns::zip::{MemberColumns, next_member};
use fields::part::Part;
use fields::step::Step;
use lookup::by_number::{get, is_inside};
use protobuf::refusal::Refusal;
use wire::record::WireBlock;

#[derive(Clone, Copy, PartialEq)]
pub enum MemberId {
    Node(i64),
    Way(i64),
    Relation(i64),
    Unknown { kind: i32, id: i64 },
}

#[derive(Clone, Copy)]
pub struct RelMember {
    pub role: i32,
    pub id: MemberId,
}

// A type of its own, since an Option has no methods but its own.
#[derive(Clone, Copy)]
pub enum RelMemberIter {
    Ended,
    Members(MemberColumns),
}

// An id by the member's type, which stays a number where it is none of three: the format may have more types.
fn member_id(kind: i32, id: i64) -> MemberId
    ensures { result ≡ id_by kind id }
{
    match kind {
        0 => MemberId::Node(id),
        1 => MemberId::Way(id),
        2 => MemberId::Relation(id),
        _ => MemberId::Unknown { kind, id },
    }
}

// The next member of columns over a record, with the state behind it: 14 unless the record and then all three columns are inside, then what
// the columns say.
fn next_of(
    buffer: &[u8],
    block: WireBlock,
    columns: MemberColumns,
) -> Result<Option<(RelMember, RelMemberIter)>, Refusal>
    ensures { said_by (λ x. x.0) (λ x. members_from buffer.now block x.1) result ≡ members_by buffer.now block columns }
{
    if !is_inside(buffer, block) {
        return Err(Refusal::Outside);
    }
    if !are_members_inside(buffer, columns) {
        return Err(Refusal::Outside);
    }
    let Some(((role, kind), next)) = next_member(buffer, columns)? else {
        return Ok(None);
    };
    let id = member_id(kind, next.memids.sum);
    Ok(Some((RelMember { role, id }, RelMemberIter::Members(next))))
}

impl RelMemberIter {
    // The state before a relation's members; of another element the ended one.
    pub fn new(element: Element) -> Self
        ensures { result ≡ members_start element }
    {
        match element {
            Element::DenseNode(_) => RelMemberIter::Ended,
            Element::Node(_) => RelMemberIter::Ended,
            Element::Way(_) => RelMemberIter::Ended,
            Element::Relation(v) => RelMemberIter::Members(MemberColumns {
                roles: start_column(v.roles),
                memids: Sum::start(v.memids),
                types: start_column(v.types),
            }),
        }
    }

    // The next member with the state behind it: 14 unless the record is inside the buffer and then all three columns are, then 2 and 3 of
    // the varints, then 12 where the counts differ. Behind ended and behind a refusal the state is the ended one, and a step on that says
    // ended whatever the buffer and the record are.
    pub fn step(self, buffer: &[u8], block: WireBlock) -> Step<RelMember, RelMemberIter>
        ensures says { member_said buffer.now block result ≡ members_from buffer.now block self }
        ensures behind { member_behind result ≡ RelMemberIter.Ended }
    {
        match self {
            RelMemberIter::Ended => step_of(Ok(None), self),
            RelMemberIter::Members(columns) => {
                step_of(next_of(buffer, block, columns), RelMemberIter::Ended)
            }
        }
    }
}

// The text of a role: none where the number is negative, else what `get` says of it. On the buffer and the record that a scan left it is the
// block's own string of that number.
pub fn role_text(buffer: &[u8], block: WireBlock, role: i32) -> Result<Option<Part>, Refusal>
    ensures answer { result ≡ role_at buffer.now block role }
    ensures scanned { (b : List ℕ) (n : ℕ) → Scanned-as buffer.now block b n → result ≡ role_of (take n b) role }
{
    if role < 0 {
        Ok(None)
    } else {
        get(buffer, block, role as usize)
    }
}
