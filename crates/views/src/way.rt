// Way: a way's message.
ghost use Rattle.std.specs.Prelude.{refl};
ghost use Rattle.fields.specs.Schema.{way};
ghost use Rattle.views.specs.Way.{way_of, way_at};

use crate::view::{PLACE_20, PLACES, View, part_in};
use fields::part::Part;
use fields::schema::way;
use fields::slot::{Rule, Slot};
use numbers::signed::Signed;

#[derive(Clone, Copy)]
pub struct WireWay {
    pub id: i64,
    pub keys: Part,
    pub vals: Part,
    pub info: Part,
    pub refs: Part,
    pub lat: Part,
    pub lon: Part,
    pub pins: Part,
}

impl View for WireWay {
    ghost schema = { way };

    ghost of = { way_of };

    ghost at = { way_at };

    #[tactic(auto, unfolding(fields::specs::Slot::rule_for))]
    fn rule(tag: u32) -> Option<Rule> {
        match tag {
            way::ID => Some(Rule::Scalar(1)),
            way::KEYS | way::KEYS_ONE => Some(Rule::Column(2)),
            way::VALS | way::VALS_ONE => Some(Rule::Column(3)),
            way::INFO => Some(Rule::Message(4)),
            way::REFS | way::REFS_ONE => Some(Rule::Column(8)),
            way::LAT | way::LAT_ONE => Some(Rule::Column(9)),
            way::LON | way::LON_ONE => Some(Rule::Column(10)),
            way::PINS => Some(Rule::Bytes(PLACE_20)),
            _ => None,
        }
    }

    fn of(slots: &[Slot; PLACES]) -> WireWay {
        WireWay {
            id: i64::of_bits(slots[1].value),
            keys: part_in(slots, 2),
            vals: part_in(slots, 3),
            info: part_in(slots, 4),
            refs: part_in(slots, 8),
            lat: part_in(slots, 9),
            lon: part_in(slots, 10),
            pins: part_in(slots, PLACE_20),
        }
    }

    ghost room = { refl };

    ghost moved = { λ base slots. refl };
}
