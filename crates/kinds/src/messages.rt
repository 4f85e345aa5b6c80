// The messages of a group: its nodes, its ways, its relations, each viewed when it is handed out.
ghost use Rattle.std.specs.Prelude.{◌≡◌, Bool, true, List, ℕ};
ghost use Rattle.fields.specs.Outcome.{each};
ghost use Rattle.fields.specs.View.{view_in};
ghost use Rattle.elements.specs.Element.{Item, item_of};
ghost use Rattle.kinds.specs.Loose.{field_of, info_in, node_in, way_in, relation_in, viewed_as, loose_from};
ghost use Rattle.kinds.specs.Said.{loose_said, place_inside};

use crate::state::{Loose, Messages};
use elements::element::Element;
use fields::part::{NONE, Part};
use groups::group::{MessagePlace, WireMessageIter};
use protobuf::refusal::Refusal;
use views::node::WireNode;
use views::relation::WireRelation;
use views::view::View;
use views::way::WireWay;

// The field of a group that a kind's messages stand in.
impl From<Loose> for u32 {
    ghost from_gives = { λ kind r. r ≡ field_of kind };

    fn from(kind: Loose) -> u32 {
        match kind {
            Loose::Nodes => 1,
            Loose::Ways => 3,
            Loose::Relations => 4,
        }
    }
}

// An Info's part, which a plain walk does not hand out.
pub fn info_in(full: bool, part: Part) -> Part
    ensures { result ≡ info_in full part }
{
    if full { part } else { NONE }
}

// A view that is handed out as an element.
trait Shown: View {
    ghost shown: { Bool → Self → Item };

    // The element, with the Info's part in a full walk.
    fn element(self, full: bool) -> Element
        ensures { (s : List ℕ) → item_of s result ≡ shown full self };
}

impl Shown for WireNode {
    ghost shown = { node_in };

    fn element(self, full: bool) -> Element {
        Element::Node(WireNode {
            info: info_in(full, self.info),
            ..self
        })
    }
}

impl Shown for WireWay {
    ghost shown = { way_in };

    fn element(self, full: bool) -> Element {
        Element::Way(WireWay {
            info: info_in(full, self.info),
            ..self
        })
    }
}

impl Shown for WireRelation {
    ghost shown = { relation_in };

    fn element(self, full: bool) -> Element {
        Element::Relation(WireRelation {
            info: info_in(full, self.info),
            ..self
        })
    }
}

// A message as an element, by its view.
fn view_as<V: Shown>(buffer: &[u8], full: bool, message: Part) -> Result<Element, Refusal>
    ensures { each (item_of buffer.now) result ≡ each (λ slots. V.shown full (V.View.at message.start slots)) (view_in V.View.schema buffer.now message.start message.len) }
{
    let v = V::parse(buffer, message.start, message.len)?;
    Ok(v.element(full))
}

// A message of any kind.
fn view(buffer: &[u8], full: bool, kind: Loose, message: Part) -> Result<Element, Refusal>
    ensures { each (item_of buffer.now) result ≡ viewed_as full kind buffer.now message }
{
    match kind {
        Loose::Nodes => view_as::<WireNode>(buffer, full, message),
        Loose::Ways => view_as::<WireWay>(buffer, full, message),
        Loose::Relations => view_as::<WireRelation>(buffer, full, message),
    }
}

// The next message of the state's kind, viewed, with the place behind it: 14 where the group passes the buffer or the place passes the
// group, then what the message's view refuses.
pub fn next_loose(buffer: &[u8], m: Messages) -> Result<Option<(Part, Element, usize)>, Refusal>
    ensures says { loose_said buffer.now m result ≡ loose_from buffer.now m }
    ensures inside { place_inside m result ≡ true }
{
    let place = MessagePlace {
        start: m.of.start,
        len: m.of.len,
        at: m.at,
        field: u32::from(m.kind),
    };
    let step = WireMessageIter::At(place).step(buffer);
    let Some(part) = step.said? else {
        return Ok(None);
    };
    let element = view(buffer, m.full, m.kind, part)?;
    Ok(Some((part, element, part.start + part.len - m.of.start)))
}
