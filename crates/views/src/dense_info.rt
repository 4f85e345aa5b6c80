// DenseInfo: the metadata of dense nodes, a column for each value.
ghost use Rattle.std.specs.Prelude.{refl};
ghost use Rattle.fields.specs.Schema.{dense_info};
ghost use Rattle.views.specs.DenseInfo.{dense_info_of, dense_info_at};

use crate::view::{PLACES, View, part_in};
use fields::part::Part;
use fields::schema::dense_info;
use fields::slot::{Rule, Slot};

// `user` is user_sid.
#[derive(Clone, Copy)]
pub struct WireDenseInfo {
    pub version: Part,
    pub timestamp: Part,
    pub changeset: Part,
    pub uid: Part,
    pub user: Part,
    pub visible: Part,
}

impl View for WireDenseInfo {
    ghost schema = { dense_info };

    ghost of = { dense_info_of };

    ghost at = { dense_info_at };

    #[tactic(auto, unfolding(fields::specs::Slot::rule_for))]
    fn rule(tag: u32) -> Option<Rule> {
        match tag {
            dense_info::VERSION | dense_info::VERSION_ONE => Some(Rule::Column(1)),
            dense_info::TIMESTAMP | dense_info::TIMESTAMP_ONE => Some(Rule::Column(2)),
            dense_info::CHANGESET | dense_info::CHANGESET_ONE => Some(Rule::Column(3)),
            dense_info::UID | dense_info::UID_ONE => Some(Rule::Column(4)),
            dense_info::USER_SID | dense_info::USER_SID_ONE => Some(Rule::Column(5)),
            dense_info::VISIBLE | dense_info::VISIBLE_ONE => Some(Rule::Column(6)),
            _ => None,
        }
    }

    fn of(slots: &[Slot; PLACES]) -> WireDenseInfo {
        WireDenseInfo {
            version: part_in(slots, 1),
            timestamp: part_in(slots, 2),
            changeset: part_in(slots, 3),
            uid: part_in(slots, 4),
            user: part_in(slots, 5),
            visible: part_in(slots, 6),
        }
    }

    ghost room = { refl };

    ghost moved = { λ base slots. refl };
}
