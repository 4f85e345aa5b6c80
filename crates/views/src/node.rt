// Node: a loose node's message.
ghost use Rattle.std.specs.Prelude.{refl};
ghost use Rattle.fields.specs.Schema.{node};
ghost use Rattle.views.specs.Node.{node_of, node_at};

use crate::view::{PLACES, View, part_in};
use fields::part::Part;
use fields::schema::node;
use fields::slot::{Rule, Slot};
use numbers::signed::Signed;

#[derive(Clone, Copy)]
pub struct WireNode {
    pub id: i64,
    pub lat: i64,
    pub lon: i64,
    pub keys: Part,
    pub vals: Part,
    pub info: Part,
}

impl View for WireNode {
    ghost schema = { node };

    ghost of = { node_of };

    ghost at = { node_at };

    #[tactic(auto, unfolding(fields::specs::Slot::rule_for))]
    fn rule(tag: u32) -> Option<Rule> {
        match tag {
            node::ID => Some(Rule::Scalar(1)),
            node::KEYS | node::KEYS_ONE => Some(Rule::Column(2)),
            node::VALS | node::VALS_ONE => Some(Rule::Column(3)),
            node::INFO => Some(Rule::Message(4)),
            node::LAT => Some(Rule::Scalar(8)),
            node::LON => Some(Rule::Scalar(9)),
            _ => None,
        }
    }

    fn of(slots: &[Slot; PLACES]) -> WireNode {
        WireNode {
            id: i64::of_zigzag(slots[1].value),
            lat: i64::of_zigzag(slots[8].value),
            lon: i64::of_zigzag(slots[9].value),
            keys: part_in(slots, 2),
            vals: part_in(slots, 3),
            info: part_in(slots, 4),
        }
    }

    ghost room = { refl };

    ghost moved = { λ base slots. refl };
}
