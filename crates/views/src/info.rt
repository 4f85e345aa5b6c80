// Info: the metadata of a node, a way or a relation.
ghost use Rattle.std.specs.Prelude.{◌≡◌, ◌<◌, ℕ, refl};
ghost use Rattle.numbers.specs.Signed.{twos};
ghost use Rattle.fields.specs.Schema.{info};
ghost use Rattle.views.specs.Slots.{slot_at};
ghost use Rattle.views.specs.Info.{number_of, bool_of, info_of, info-moved};

use crate::view::{PLACES, View};
use fields::schema::info;
use fields::slot::{Rule, Slot};
use numbers::signed::Signed;

// Each where it was read; `user` is user_sid.
#[derive(Clone, Copy)]
pub struct WireInfo {
    pub version: Option<i32>,
    pub timestamp: Option<i64>,
    pub changeset: Option<i64>,
    pub uid: Option<i32>,
    pub user: Option<i32>,
    pub visible: Option<bool>,
}

// The number at a place, where it was read.
fn number_in(slots: &[Slot; PLACES], k: usize) -> Option<u64>
    requires { k < 11 }
    ensures { result ≡ number_of (λ n. n) (slot_at slots.now k) }
{
    slots[k].part.present.then_some(slots[k].value)
}

// By its lowest 32 bits, with their sign. Two functions: one over the type would hand `T::of_bits` to `map`, which the borrow checker does not
// cover.
fn int32_in(slots: &[Slot; PLACES], k: usize) -> Option<i32>
    requires { k < 11 }
    ensures { result ≡ number_of (twos 32) (slot_at slots.now k) }
{
    number_in(slots, k).map(i32::of_bits)
}

// By all 64 bits.
fn int64_in(slots: &[Slot; PLACES], k: usize) -> Option<i64>
    requires { k < 11 }
    ensures { result ≡ number_of (twos 64) (slot_at slots.now k) }
{
    number_in(slots, k).map(i64::of_bits)
}

// True unless 0.
fn bool_in(slots: &[Slot; PLACES], k: usize) -> Option<bool>
    requires { k < 11 }
    ensures { result ≡ number_of bool_of (slot_at slots.now k) }
{
    number_in(slots, k).map(|n| n != 0)
}

impl View for WireInfo {
    ghost schema = { info };

    ghost of = { info_of };

    ghost at = { λ base slots. info_of slots };

    #[tactic(auto, unfolding(fields::specs::Slot::rule_for))]
    fn rule(tag: u32) -> Option<Rule> {
        match tag {
            info::VERSION => Some(Rule::Scalar(1)),
            info::TIMESTAMP => Some(Rule::Scalar(2)),
            info::CHANGESET => Some(Rule::Scalar(3)),
            info::UID => Some(Rule::Scalar(4)),
            info::USER_SID => Some(Rule::Scalar(5)),
            info::VISIBLE => Some(Rule::Scalar(6)),
            _ => None,
        }
    }

    // A version or a changeset that is −1 becomes absent.
    fn of(slots: &[Slot; PLACES]) -> WireInfo {
        WireInfo {
            version: int32_in(slots, 1).filter(|n| *n != -1),
            timestamp: int64_in(slots, 2),
            changeset: int64_in(slots, 3).filter(|n| *n != -1),
            uid: int32_in(slots, 4),
            user: int32_in(slots, 5),
            visible: bool_in(slots, 6),
        }
    }

    ghost room = { refl };

    ghost moved = { info-moved };
}
