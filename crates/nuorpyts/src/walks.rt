// A block's elements through C: the walk's start, plain and full, and its calls, for one element or for as many as there is room for.
ghost use Rattle.std.specs.Prelude.{◌≡◌, true, false, List, ℕ, length, leb};
ghost use Rattle.numbers.specs.Choose.{choose};
ghost use Rattle.answers.specs.Words.{filled};
ghost use Rattle.walk.specs.Walk.{fresh};
ghost use Rattle.calls.specs.Calls.{one_room, room_for, call_code, items_of, count_after, SlotLeft};
ghost use Rattle.walk_slots.specs.Slot.{walk_words, walk_at};
ghost use Rattle.walk_calls.specs.Steps.{ElementsIn, walk_in, walk_call};
ghost use Rattle.nuorpyts.specs.Chains.{Accepted-in, WholeIn};

use answers::codes::code;
use short_calls::short::short_step;
use walk::state::BlockElementsIter;
use walk_calls::steps::{next_step, next_steps, start_walk};

// The plain walk at its start, which hands out no metadata, in a slot: 14 where that is too short, which leaves it as it is.
#[unsafe(no_mangle)]
pub extern "C" fn nuorpyts_walk(state: &mut [u8]) -> u32
    ensures code { result ≡ choose (leb 272 (length state.old)) 0 14 }
    ensures next { state.new ≡ choose (leb 272 (length state.old)) (filled state.old (walk_words (fresh false))) state.old }
    ensures back { result ≡ 0 → walk_at state.new ≡ fresh false }
{
    code(start_walk(state, false))
}

// The full walk at its start, in a slot: 14 where that is too short, which leaves it as it is.
#[unsafe(no_mangle)]
pub extern "C" fn nuorpyts_walk_full(state: &mut [u8]) -> u32
    ensures code { result ≡ choose (leb 272 (length state.old)) 0 14 }
    ensures next { state.new ≡ choose (leb 272 (length state.old)) (filled state.old (walk_words (fresh true))) state.old }
    ensures back { result ≡ 0 → walk_at state.new ≡ fresh true }
{
    code(start_walk(state, true))
}

// The next element, with the state behind it: 14 where the slot is too short for a state, and 101 where it holds the ended one; both leave
// it as it is. Else 14 where `out` is too short for an element or `rec` is no record, then what the step refuses, and 101 where there are no
// more: the slot then holds the ended state, and `out` is as it was. The last clause is demand 3 through C: what whole chains of these calls
// hand out, over this buffer and record and over any others of accepted blocks. The short way is tried in the entry itself: a function between
// would copy the slices (docs/DECISIONS.md, Through C).
#[unsafe(no_mangle)]
pub extern "C" fn nuorpyts_step(buffer: &[u8], rec: &[u8], state: &mut [u8], out: &mut [u8]) -> u32
    ensures code { result ≡ call_code (walk_call buffer.now rec.now state.old (one_room 208 out.old)) }
    ensures next { SlotLeft walk_at walk_words BlockElementsIter.Ended (walk_in buffer.now rec.now) state.old (walk_call buffer.now rec.now state.old (one_room 208 out.old)) state.new }
    ensures after { ElementsIn buffer.now out.old (items_of (walk_call buffer.now rec.now state.old (one_room 208 out.old))) out.new }
    ensures whole { (b : List ℕ) (n : ℕ) (s' : List ℕ) (rec' : List ℕ) (b' : List ℕ) (n' : ℕ) → Accepted-in buffer.now rec.now b n → Accepted-in s' rec' b' n' → WholeIn buffer.now rec.now b n s' rec' b' n' }
{
    if short_step(buffer, rec, state, out) {
        return 0;
    }
    code(next_step(buffer, rec, state, out))
}

// The same: here a step is never quiet.
#[unsafe(no_mangle)]
pub extern "C" fn nuorpyts_next(buffer: &[u8], rec: &[u8], state: &mut [u8], out: &mut [u8]) -> u32
    ensures code { result ≡ call_code (walk_call buffer.now rec.now state.old (one_room 208 out.old)) }
    ensures next { SlotLeft walk_at walk_words BlockElementsIter.Ended (walk_in buffer.now rec.now) state.old (walk_call buffer.now rec.now state.old (one_room 208 out.old)) state.new }
    ensures after { ElementsIn buffer.now out.old (items_of (walk_call buffer.now rec.now state.old (one_room 208 out.old))) out.new }
    ensures whole { (b : List ℕ) (n : ℕ) (s' : List ℕ) (rec' : List ℕ) (b' : List ℕ) (n' : ℕ) → Accepted-in buffer.now rec.now b n → Accepted-in s' rec' b' n' → WholeIn buffer.now rec.now b n s' rec' b' n' }
{
    if short_step(buffer, rec, state, out) {
        return 0;
    }
    code(next_step(buffer, rec, state, out))
}

// As many elements as `out` has room for, and how many they are: the codes are those of a call for one, with 14 also where the slice for the
// count is too short. What ends them behind an element is told by the next call.
#[unsafe(no_mangle)]
pub extern "C" fn nuorpyts_steps(
    buffer: &[u8],
    rec: &[u8],
    state: &mut [u8],
    out: &mut [u8],
    count: &mut [u8],
) -> u32
    ensures code { result ≡ call_code (walk_call buffer.now rec.now state.old (room_for 208 out.old count.old)) }
    ensures next { SlotLeft walk_at walk_words BlockElementsIter.Ended (walk_in buffer.now rec.now) state.old (walk_call buffer.now rec.now state.old (room_for 208 out.old count.old)) state.new }
    ensures after { ElementsIn buffer.now out.old (items_of (walk_call buffer.now rec.now state.old (room_for 208 out.old count.old))) out.new }
    ensures counted { count.new ≡ count_after count.old (items_of (walk_call buffer.now rec.now state.old (room_for 208 out.old count.old))) }
    ensures whole { (b : List ℕ) (n : ℕ) (s' : List ℕ) (rec' : List ℕ) (b' : List ℕ) (n' : ℕ) → Accepted-in buffer.now rec.now b n → Accepted-in s' rec' b' n' → WholeIn buffer.now rec.now b n s' rec' b' n' }
{
    code(next_steps(buffer, rec, state, out, count))
}
