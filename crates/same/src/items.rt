// Two elements: group, kind, id and raw position, then their tags, their references and their members.
ghost use Rattle.std.specs.Prelude.{◌≡◌, true};
ghost use Rattle.elements.specs.Element.{item_of};
ghost use Rattle.fields.specs.declared.part.Part.{Part as Range};
ghost use Rattle.lookup.specs.Lookup.{is_record_inside};
ghost use Rattle.walk.specs.Same.{same_item, same_element};
ghost use Rattle.same.specs.Heads.{head_of, found_by};

use crate::streams::same_streams;
use elements::element::Element;
use elements::members::RelMemberIter;
use elements::references::WayRefIter;
use elements::tags::TagIter;
use protobuf::refusal::Refusal;
use wire::record::WireBlock;

// The kinds of elements.
#[derive(Clone, Copy, PartialEq)]
enum Kind {
    DenseNode,
    Node,
    Way,
    Relation,
}

// What is known of an element without a reader: its group, its kind, its id, and its raw position, 0 and 0 where it has none.
#[derive(Clone, Copy, PartialEq)]
struct Head {
    group: usize,
    kind: Kind,
    id: i64,
    lat: i64,
    lon: i64,
}

fn head_of(group: usize, element: Element) -> Head
    ensures { result ≡ head_of group element }
{
    match element {
        Element::DenseNode(d) => Head {
            group,
            kind: Kind::DenseNode,
            id: d.id,
            lat: d.lat,
            lon: d.lon,
        },
        Element::Node(v) => Head {
            group,
            kind: Kind::Node,
            id: v.id,
            lat: v.lat,
            lon: v.lon,
        },
        Element::Way(v) => Head {
            group,
            kind: Kind::Way,
            id: v.id,
            lat: 0,
            lon: 0,
        },
        Element::Relation(v) => Head {
            group,
            kind: Kind::Relation,
            id: v.id,
            lat: 0,
            lon: 0,
        },
    }
}

// The tags of two elements, their references and their members, where the records are inside.
fn same_item(
    first: &[u8],
    a: WireBlock,
    e: Element,
    second: &[u8],
    b: WireBlock,
    f: Element,
) -> Result<bool, Refusal>
    requires { (is_record_inside first.now a ≡ true) × (is_record_inside second.now b ≡ true) }
    ensures { result ≡ same_item first.now a second.now b (item_of first.now e) (item_of second.now f) }
{
    let tags = same_streams(first, a, TagIter::new(e), second, b, TagIter::new(f))?;
    if !tags {
        return Ok(false);
    }
    let references = same_streams(first, a, WayRefIter::new(e), second, b, WayRefIter::new(f))?;
    if !references {
        return Ok(false);
    }
    same_streams(
        first,
        a,
        RelMemberIter::new(e),
        second,
        b,
        RelMemberIter::new(f),
    )
}

// Two elements, each with its group's number. Where their messages stand makes no difference.
pub(crate) fn same_element(
    first: &[u8],
    a: WireBlock,
    group: usize,
    e: Element,
    second: &[u8],
    b: WireBlock,
    other: usize,
    f: Element,
) -> Result<bool, Refusal>
    requires { (is_record_inside first.now a ≡ true) × (is_record_inside second.now b ≡ true) }
    ensures { (m n : Range) → result ≡ same_element first.now a second.now b (found_by first.now group m e) (found_by second.now other n f) }
{
    if head_of(group, e) != head_of(other, f) {
        return Ok(false);
    }
    same_item(first, a, e, second, b, f)
}
