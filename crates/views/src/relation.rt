// Relation: a relation's message.
ghost use Rattle.std.specs.Prelude.{refl};
ghost use Rattle.fields.specs.Schema.{relation};
ghost use Rattle.views.specs.Relation.{relation_of, relation_at};

use crate::view::{PLACES, View, part_in};
use fields::part::Part;
use fields::schema::relation;
use fields::slot::{Rule, Slot};
use numbers::signed::Signed;

#[derive(Clone, Copy)]
pub struct WireRelation {
    pub id: i64,
    pub keys: Part,
    pub vals: Part,
    pub info: Part,
    pub roles: Part,
    pub memids: Part,
    pub types: Part,
}

impl View for WireRelation {
    ghost schema = { relation };

    ghost of = { relation_of };

    ghost at = { relation_at };

    #[tactic(auto, unfolding(fields::specs::Slot::rule_for))]
    fn rule(tag: u32) -> Option<Rule> {
        match tag {
            relation::ID => Some(Rule::Scalar(1)),
            relation::KEYS | relation::KEYS_ONE => Some(Rule::Column(2)),
            relation::VALS | relation::VALS_ONE => Some(Rule::Column(3)),
            relation::INFO => Some(Rule::Message(4)),
            relation::ROLES | relation::ROLES_ONE => Some(Rule::Column(8)),
            relation::MEMIDS | relation::MEMIDS_ONE => Some(Rule::Column(9)),
            relation::TYPES | relation::TYPES_ONE => Some(Rule::Column(10)),
            _ => None,
        }
    }

    fn of(slots: &[Slot; PLACES]) -> WireRelation {
        WireRelation {
            id: i64::of_bits(slots[1].value),
            keys: part_in(slots, 2),
            vals: part_in(slots, 3),
            info: part_in(slots, 4),
            roles: part_in(slots, 8),
            memids: part_in(slots, 9),
            types: part_in(slots, 10),
        }
    }

    ghost room = { refl };

    ghost moved = { λ base slots. refl };
}
