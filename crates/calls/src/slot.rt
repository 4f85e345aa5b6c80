// A state in a slot that the caller lends, and what the slots of several sub-walks hold: where a column's reader stands and ends, and one with
// the sum up to there.
ghost use Rattle.std.specs.Prelude.{ℕ, List, Bool, ◌≡◌, ◌≤◌, length};
ghost use Rattle.numbers.specs.Little.{number_at};
ghost use Rattle.numbers.specs.Signed.{twos};
ghost use Rattle.answers.specs.Words.{filled};

use columns::sums::Sum;
use numbers::little::Little;
use numbers::signed::Signed;
use protobuf::column::Column;

// The numbers of a state, and the state that numbers stand for. A slot whose numbers no state has is read as a state that is outside every
// buffer, so that the step itself refuses it. A phase is a number where a slot is read or put, and in the short ways over a slot: an enum of
// phases would be matched again at once.
pub trait Slot {
    type State: Copy;

    // How many bytes a state takes.
    const WIDTH: usize;

    ghost WIDTH: { ℕ };

    // The numbers of a state, and the state that a slot begins with.
    ghost words: { Self.State → List ℕ };

    ghost state_at: { List ℕ → Self.State };

    // The ended state, and whether a state is that one.
    ghost over: { Self.State };

    ghost is_over: { Self.State → Bool };

    fn over() -> Self::State
        ensures { result ≡ over };

    fn is_over(state: Self::State) -> bool
        ensures { result ≡ is_over state };

    fn state_in(slot: &[u8]) -> Self::State
        ensures { result ≡ state_at slot.now };

    // No byte changes where the slot is too short for a state.
    fn put_state(slot: &mut [u8], state: Self::State)
        ensures after { slot.new ≡ filled slot.old (words state) }
        ensures back { WIDTH ≤ length slot.old → state_at slot.new ≡ state };
}

// The reader whose two numbers stand at these places.
pub fn column_in(slot: &[u8], at: usize, end: usize) -> Column
    ensures { result ≡ record { at = number_at 8 slot.now at; end = number_at 8 slot.now end } }
{
    Column {
        at: u64::read(slot, at) as usize,
        end: u64::read(slot, end) as usize,
    }
}

// The same with the sum up to there, whose number stands at a third.
pub fn sum_in<T: Signed>(slot: &[u8], at: usize, end: usize, sum: usize) -> Sum<T>
    ensures column { result.column ≡ record { at = number_at 8 slot.now at; end = number_at 8 slot.now end } }
    ensures sum { T.to_int result.sum ≡ twos T.width (number_at 8 slot.now sum) }
{
    Sum {
        column: column_in(slot, at, end),
        sum: T::of_bits(u64::read(slot, sum)),
    }
}
