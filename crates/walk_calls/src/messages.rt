// The messages of a kind that follow one another, viewed and put into an answer's slice: nodes, ways, relations. A message goes from its view
// to the slice without an `Element` between, which would be copied at every call.
ghost use Rattle.std.specs.Prelude.{ℕ, List, Bool, Ok, ◌≡◌, ◌+◌, ◌*◌, ◌≤◌, length, refl};
ghost use Rattle.fields.specs.declared.part.Part.{Part};
ghost use Rattle.fields.specs.Outcome.{each};
ghost use Rattle.fields.specs.View.{view_in};
ghost use Rattle.elements.specs.declared.element.Element.{Element};
ghost use Rattle.elements.specs.Element.{item_of};
ghost use Rattle.kinds.specs.declared.state.Loose.{Loose};
ghost use Rattle.kinds.specs.declared.state.Loose.TheVariants as loose;
ghost use Rattle.kinds.specs.Loose.{viewed_as};
ghost use Rattle.answers.specs.Words.{filled_at};
ghost use Rattle.layouts.specs.Element.{kind_word, own_words};
ghost use Rattle.walk_calls.specs.Shown.{node_element, way_element, relation_element, node-kept, way-kept, relation-kept};
ghost use Rattle.kinds.specs.Said.{at_place};
ghost use Rattle.walk.specs.declared.state.BlockElementsIter.TheVariants as iter;
ghost use Rattle.walk.specs.Walk.{elements_from};
ghost use Rattle.walk_calls.specs.Fills.{MessagePut, Fills, FillsInside};

use answers::layout::Layout;
use answers::words::put_at;
use calls::run::Run;
use fields::part::Part;
use groups::group::{MessagePlace, WireMessageIter};
use kinds::messages::info_in;
use kinds::state::{Loose, Messages};
use lookup::by_number::is_inside;
use views::node::WireNode;
use views::relation::WireRelation;
use views::view::View;
use views::way::WireWay;
use walk::inside::group_inside;
use wire::record::WireBlock;

// A view as its message is put.
trait Shown: View + Copy {
    // The number of its kind.
    const KIND: u64;

    ghost KIND: { ℕ };

    ghost kind: { Loose };

    // The element, with the Info's part in a full walk.
    ghost element: { Bool → Self → Element };

    // Its own numbers, which stand behind those of its place.
    fn put_own(self, full: bool, out: &mut [u8], at: usize)
        ensures { out.new ≡ filled_at out.old at (own_words (element full self)) };

    ghost number: { (full : Bool) (v : Self) → kind_word (element full v) ≡ KIND };

    ghost kept: { (s : List ℕ) (full : Bool) (m : Part) (v : Self) → each (Self.at m.start) (view_in Self.schema s m.start m.len) ≡ Ok v → viewed_as full kind s m ≡ Ok (item_of s (element full v)) };
}

impl Shown for WireNode {
    const KIND: u64 = 1;

    ghost KIND = { 1 };

    ghost kind = { loose.Nodes };

    ghost element = { node_element };

    fn put_own(self, full: bool, out: &mut [u8], at: usize) {
        let shown = WireNode {
            info: info_in(full, self.info),
            ..self
        };
        shown.put_at(out, at);
    }

    ghost number = { λ full v. refl };

    ghost kept = { node-kept };
}

impl Shown for WireWay {
    const KIND: u64 = 2;

    ghost KIND = { 2 };

    ghost kind = { loose.Ways };

    ghost element = { way_element };

    fn put_own(self, full: bool, out: &mut [u8], at: usize) {
        let shown = WireWay {
            info: info_in(full, self.info),
            ..self
        };
        shown.put_at(out, at);
    }

    ghost number = { λ full v. refl };

    ghost kept = { way-kept };
}

impl Shown for WireRelation {
    const KIND: u64 = 3;

    ghost KIND = { 3 };

    ghost kind = { loose.Relations };

    ghost element = { relation_element };

    fn put_own(self, full: bool, out: &mut [u8], at: usize) {
        let shown = WireRelation {
            info: info_in(full, self.info),
            ..self
        };
        shown.put_at(out, at);
    }

    ghost number = { λ full v. refl };

    ghost kept = { relation-kept };
}

// A message at a place of `out`: whether its view keeps it. What a view refuses is told by a step.
fn put_view<V: Shown>(
    buffer: &[u8],
    full: bool,
    group: usize,
    message: Part,
    out: &mut [u8],
    at: usize,
) -> bool
    requires { at + 208 ≤ length out.old }
    ensures { MessagePut buffer.now full V.kind group message out.old at result out.new }
{
    let Ok(v) = V::parse(buffer, message.start, message.len) else {
        return false;
    };
    put_at(
        out,
        at,
        &[
            V::KIND,
            group as u64,
            message.start as u64,
            message.len as u64,
        ],
    );
    v.put_own(full, out, at + 32);
    true
}

// A message of any kind: one match, which picks the view.
fn put_message(
    buffer: &[u8],
    full: bool,
    kind: Loose,
    group: usize,
    message: Part,
    out: &mut [u8],
    at: usize,
) -> bool
    requires { at + 208 ≤ length out.old }
    ensures { MessagePut buffer.now full kind group message out.old at result out.new }
{
    match kind {
        Loose::Nodes => put_view::<WireNode>(buffer, full, group, message, out, at),
        Loose::Ways => put_view::<WireWay>(buffer, full, group, message, out, at),
        Loose::Relations => put_view::<WireRelation>(buffer, full, group, message, out, at),
    }
}

// Message after message. It stops where there is no next one, or where its view refuses it.
fn fill_messages(buffer: &[u8], m: Messages, out: &mut [u8], most: usize) -> Run<usize>
    requires { 208 * most ≤ length out.old }
    ensures { FillsInside buffer.now most (iter.Messages m) out.old result.count (iter.Messages (at_place m result.next)) out.new }
{
    let of = m.of;
    let kind = m.kind;
    let field = u32::from(kind);
    let mut at = m.at;
    let mut count = 0;
    while count < most {
        let place = MessagePlace {
            start: of.start,
            len: of.len,
            at,
            field,
        };
        let step = WireMessageIter::At(place).step(buffer);
        let Ok(Some(part)) = step.said else {
            return Run { count, next: at };
        };
        if !put_message(buffer, m.full, kind, of.group, part, out, 208 * count) {
            return Run { count, next: at };
        }
        at = part.start + part.len - of.start;
        count += 1;
    }
    Run { count, next: at }
}

// The messages that a state has before it: none where record or state is outside, which a step tells.
pub(crate) fn put_messages_of(
    buffer: &[u8],
    block: WireBlock,
    m: Messages,
    out: &mut [u8],
    most: usize,
) -> Run<usize>
    requires { 208 * most ≤ length out.old }
    ensures { Fills buffer.now (elements_from buffer.now block) most (iter.Messages m) out.old result.count (iter.Messages (at_place m result.next)) out.new }
{
    let none = Run {
        count: 0,
        next: m.at,
    };
    if !is_inside(buffer, block) {
        return none;
    }
    if !group_inside(buffer, block, m.of) {
        return none;
    }
    if m.of.len < m.at {
        return none;
    }
    fill_messages(buffer, m, out, most)
}
