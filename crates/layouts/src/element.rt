// An element as it passes through C: its kind, its group's number, its message's part, and the numbers of its kind.
ghost use Rattle.std.specs.Prelude.{◌≡◌, ◌+◌, ◌≤◌, length};
ghost use Rattle.numbers.specs.Little.{written};
ghost use Rattle.answers.specs.Words.{words};
ghost use Rattle.layouts.specs.Element.{node_info_words, dense_node_words, kind_word, own_words, element_put};

use answers::layout::Layout;
use answers::words::put_at;
use elements::element::{DenseNode, Element, NodeInfo};
use fields::part::Part;
use numbers::signed::Signed;

// An element's bytes: a way has the most numbers, 26.
pub const ELEMENT: usize = 208;

// Puts a dense node's metadata.
fn put_info(out: &mut [u8], at: usize, info: NodeInfo)
    requires { at + 56 ≤ length out.old }
    ensures { out.new ≡ written out.old at (words (node_info_words info)) }
{
    match info {
        NodeInfo::Unread => put_at(out, at, &[0]),
        NodeInfo::Missing => put_at(out, at, &[1]),
        NodeInfo::Row(i) => put_at(
            out,
            at,
            &[
                2,
                i.version.bits(),
                i.timestamp.bits(),
                i.changeset.bits(),
                i.uid.bits(),
                i.user.bits(),
                i.visible as u64,
            ],
        ),
    }
}

// Puts a dense node's own numbers.
// The order of a dense node's numbers is written three times: from the node, from the columns' sums, from the slot.
fn put_dense(out: &mut [u8], at: usize, d: DenseNode)
    requires { at + 96 ≤ length out.old }
    ensures { out.new ≡ written out.old at (words (dense_node_words d)) }
{
    put_at(
        out,
        at,
        &[
            d.id.bits(),
            d.lat.bits(),
            d.lon.bits(),
            d.tags.at as u64,
            d.tags.end as u64,
        ],
    );
    put_info(out, at + 40, d.info);
}

// Puts the numbers of an element's kind.
// Each arm binds what its case alone has.
fn put_own(out: &mut [u8], at: usize, element: Element)
    requires { at + 176 ≤ length out.old }
    ensures { out.new ≡ written out.old at (words (own_words element)) }
{
    match element {
        Element::DenseNode(d) => put_dense(out, at, d),
        Element::Node(v) => v.put_at(out, at),
        Element::Way(v) => v.put_at(out, at),
        Element::Relation(v) => v.put_at(out, at),
    }
}

// The number of an element's kind, as C has it: no `From`, which can't be written here for another crate's type.
fn kind_number(element: Element) -> u64
    ensures { result ≡ kind_word element }
{
    match element {
        Element::DenseNode(_) => 0,
        Element::Node(_) => 1,
        Element::Way(_) => 2,
        Element::Relation(_) => 3,
    }
}

// Puts an element into the 208 bytes from `at` on; no byte changes where they pass the end.
pub fn put_element(out: &mut [u8], at: usize, group: usize, message: Part, element: Element)
    ensures { out.new ≡ element_put out.old at group message element }
{
    if out.len() < at {
        return;
    }
    if out.len() - at < ELEMENT {
        return;
    }
    let kind = kind_number(element);
    put_at(
        out,
        at,
        &[kind, group as u64, message.start as u64, message.len as u64],
    );
    put_own(out, at + 32, element);
}
