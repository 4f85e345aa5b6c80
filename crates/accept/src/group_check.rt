// The check of a group: the dense pass over all its fields, its dense message, its nodes, its ways, its relations.
ghost use Rattle.std.specs.Prelude.{◌≡◌, refl, ℕ, List, [], ◌∷◌, ◌/◌, ◌%◌};
ghost use Rattle.numbers.specs.Choose.{choose};
ghost use Rattle.block.specs.Check.{all, check_node, check_way, check_relation, check_dense, check_loose, check_group};
ghost use Rattle.fields.specs.Outcome.{Outcome};
ghost use Rattle.fields.specs.Part.{bytes_of};
ghost use Rattle.fields.specs.Parts.{messages_of};

use fields::part::{Part, bytes_of};
use fields::schema::primitive_group::{NODE, RELATION, WAY};
use groups::group::dense;
use message::field::next_field;
use passes::dense_check::check_dense;
use passes::element_check::{check_node, check_relation, check_way};
use protobuf::refusal::Refusal;
use views::node::WireNode;
use views::relation::WireRelation;
use views::way::WireWay;

// A kind of element with a message of its own: the tag of that message in a group, and the check of its bytes.
trait Checked {
    const TAG: u32;

    ghost TAG: { ℕ };

    ghost check: { List ℕ → Outcome Unit };

    fn check(s: &[u8]) -> Result<(), Refusal>
        ensures { result ≡ check s.now };

    ghost is_message: { TAG % 8 ≡ 2 };
}

impl Checked for WireNode {
    const TAG: u32 = NODE;

    ghost TAG = { 10 };

    ghost check = { check_node };

    ghost is_message = { refl };

    fn check(s: &[u8]) -> Result<(), Refusal> {
        check_node(s)
    }
}

impl Checked for WireWay {
    const TAG: u32 = WAY;

    ghost TAG = { 26 };

    ghost check = { check_way };

    ghost is_message = { refl };

    fn check(s: &[u8]) -> Result<(), Refusal> {
        check_way(s)
    }
}

impl Checked for WireRelation {
    const TAG: u32 = RELATION;

    ghost TAG = { 34 };

    ghost check = { check_relation };

    ghost is_message = { refl };

    fn check(s: &[u8]) -> Result<(), Refusal> {
        check_relation(s)
    }
}

// The group's messages of one kind.
fn check_elements<E: Checked>(s: &[u8]) -> Result<(), Refusal>
    ensures { result ≡ all E.check (messages_of (E.TAG / 8) s.now) }
{
    let mut at = 0;
    while let Some((field, next)) = next_field(s, at).unwrap_or(None) {
        if field.tag == E::TAG {
            let end = field.start + field.len;
            E::check(&s[field.start..end])?;
        }
        at = next;
    }
    Ok(())
}

// The group's dense message, where it has one.
fn check_found(s: &[u8], found: Part) -> Result<(), Refusal>
    ensures { result ≡ all check_dense (choose found.present (bytes_of s.now found ∷ []) []) }
{
    if found.present {
        check_dense(bytes_of(s, found))
    } else {
        Ok(())
    }
}

// Nodes, then ways, then relations.
fn check_loose(s: &[u8]) -> Result<(), Refusal>
    ensures { result ≡ check_loose s.now }
{
    check_elements::<WireNode>(s)?;
    check_elements::<WireWay>(s)?;
    check_elements::<WireRelation>(s)
}

// A group: its dense message, and its nodes, ways and relations.
pub(crate) fn check_group(s: &[u8]) -> Result<(), Refusal>
    ensures { result ≡ check_group s.now }
{
    let found = dense(s, 0, s.len())?;
    check_found(s, found)?;
    check_loose(s)
}
