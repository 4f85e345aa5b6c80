// DenseNodes: a group's dense nodes, a column for each of their values.
ghost use Rattle.std.specs.Prelude.{refl};
ghost use Rattle.fields.specs.Schema.{dense_nodes};
ghost use Rattle.views.specs.DenseNodes.{dense_nodes_of, dense_nodes_at};

use crate::view::{PLACES, View, part_in};
use fields::part::Part;
use fields::schema::dense_nodes;
use fields::slot::{Rule, Slot};

// `keyvals` is keys_vals.
#[derive(Clone, Copy)]
pub struct WireDenseNodes {
    pub id: Part,
    pub info: Part,
    pub lat: Part,
    pub lon: Part,
    pub keyvals: Part,
}

impl View for WireDenseNodes {
    ghost schema = { dense_nodes };

    ghost of = { dense_nodes_of };

    ghost at = { dense_nodes_at };

    #[tactic(auto, unfolding(fields::specs::Slot::rule_for))]
    fn rule(tag: u32) -> Option<Rule> {
        match tag {
            dense_nodes::ID | dense_nodes::ID_ONE => Some(Rule::Column(1)),
            dense_nodes::INFO => Some(Rule::Message(5)),
            dense_nodes::LAT | dense_nodes::LAT_ONE => Some(Rule::Column(8)),
            dense_nodes::LON | dense_nodes::LON_ONE => Some(Rule::Column(9)),
            dense_nodes::KEYS_VALS | dense_nodes::KEYS_VALS_ONE => Some(Rule::Column(10)),
            _ => None,
        }
    }

    fn of(slots: &[Slot; PLACES]) -> WireDenseNodes {
        WireDenseNodes {
            id: part_in(slots, 1),
            info: part_in(slots, 5),
            lat: part_in(slots, 8),
            lon: part_in(slots, 9),
            keyvals: part_in(slots, 10),
        }
    }

    ghost room = { refl };

    ghost moved = { λ base slots. refl };
}
