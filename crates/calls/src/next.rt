// The calls of a walk or a sub-walk, over any state and any items: the next one, or as many as there is room for.
ghost use Rattle.std.specs.Prelude.{◌≡◌, ◌*◌, ◌≤◌, length, Err};
ghost use Rattle.protobuf.specs.declared.refusal.Refusal.TheVariants.{Outside};
ghost use Rattle.answers.specs.declared.codes.Stop.TheVariants as stop;
ghost use Rattle.calls.specs.Calls.{answered, one_room, room_for, items_of, count_after};
ghost use Rattle.answers.specs.Words.{filled};
ghost use Rattle.calls.specs.Slots.{with_record};
ghost use Rattle.calls.specs.Items.{stopped, state_left, count_of, FillsUp, Filled, counted, call_at, Called};

use crate::items::Items;
use crate::room::{has_room, one_room, room_for};
use crate::run::Run;
use crate::slot::Slot;
use answers::codes::Stop;
use answers::words::put_numbers;
use protobuf::refusal::Refusal;

// What stops the loop behind a run of items is told by the next call; behind none it is told now.
fn stopped<W: Copy>(why: Stop, run: Run<W>) -> Result<Run<W>, Stop>
    ensures { result ≡ stopped why run }
{
    if run.count == 0 { Err(why) } else { Ok(run) }
}

// As many items as there is room for, behind the first `first`. What a short way stops before is nearly always the end, which is told without a
// step. No `for`: the count moves by a run.
fn fill_inside<S: Slot, I: Items<S>>(
    buffer: &[u8],
    opened: I::Opened,
    start: S::State,
    out: &mut [u8],
    first: usize,
    most: usize,
) -> Result<Run<S::State>, Stop>
    requires { (first ≤ most) × (I.SIZE * most ≤ length out.old) }
    ensures { FillsUp (I.shows buffer.now) I.words (I.from buffer.now opened) I.SIZE most first start out.old result out.new }
{
    let mut state = start;
    let mut count = first;
    while count < most {
        let run = I::put_short(buffer, opened, state, out, count, most);
        if run.count == most {
            return Ok(run);
        }
        if I::has_ended(buffer, opened, run.next) {
            return stopped(Stop::Ended, run);
        }
        match I::put_one(buffer, opened, run.next, out, I::SIZE * run.count) {
            Err(why) => return stopped(why, run),
            Ok(next) => {
                state = next;
                count = run.count + 1;
            }
        }
    }
    stopped(Stop::OUTSIDE, Run { count, next: state })
}

// The same of any slice: 14 where it has no room for as many as `most`, or fewer are asked for than stand there.
pub fn fill<S: Slot, I: Items<S>>(
    buffer: &[u8],
    opened: I::Opened,
    start: S::State,
    out: &mut [u8],
    first: usize,
    most: usize,
) -> Result<Run<S::State>, Stop>
    ensures fills { first ≤ most → I.SIZE * most ≤ length out.old → FillsUp (I.shows buffer.now) I.words (I.from buffer.now opened) I.SIZE most first start out.old result out.new }
    ensures outside { ((first ≤ most) × (I.SIZE * most ≤ length out.old) → ⊥) → (result ≡ Err (stop.Refused Outside)) × (out.new ≡ out.old) }
{
    if most < first || !has_room(out, most, I::SIZE) {
        return Err(Stop::OUTSIDE);
    }
    fill_inside::<S, I>(buffer, opened, start, out, first, most)
}

// As many items as there is room for, over what is read beside the buffer: 14 where there is nothing.
fn fill_over<S: Slot, I: Items<S>>(
    buffer: &[u8],
    beside: Result<I::Opened, Refusal>,
    start: S::State,
    out: &mut [u8],
    most: usize,
) -> Result<Run<S::State>, Stop>
    requires { I.SIZE * most ≤ length out.old }
    ensures { Filled (I.shows buffer.now) I.words (λ w. with_record beside (λ r. I.from buffer.now r w)) I.SIZE out.old (answered most (with_record beside (λ r. I.from buffer.now r start))) result out.new }
{
    match beside {
        Err(_) => Err(Stop::OUTSIDE),
        Ok(opened) => fill_inside::<S, I>(buffer, opened, start, out, 0, most),
    }
}

// The state behind a run goes into the slot, and behind none the ended one; and how many there are.
pub fn leave<S: Slot>(slot: &mut [u8], run: Result<Run<S::State>, Stop>) -> Result<usize, Stop>
    ensures is { result ≡ count_of run }
    ensures after { slot.new ≡ filled slot.old (S.words (state_left S.over run)) }
    ensures back { S.WIDTH ≤ length slot.old → S.state_at slot.new ≡ state_left S.over run }
{
    match run {
        Err(why) => {
            S::put_state(slot, S::over());
            Err(why)
        }
        Ok(some) => {
            S::put_state(slot, some.next);
            Ok(some.count)
        }
    }
}

// As many items as there is room for, from the state in a slot, which then holds the one behind them; and how many they are.
fn call<S: Slot, I: Items<S>>(
    buffer: &[u8],
    beside: Result<I::Opened, Refusal>,
    slot: &mut [u8],
    out: &mut [u8],
    most: usize,
) -> Result<usize, Stop>
    requires { I.SIZE * most ≤ length out.old }
    ensures called { Called (I.shows buffer.now) I.words (λ w. with_record beside (λ r. I.from buffer.now r w)) I.SIZE S.state_at S.words S.over S.is_over S.WIDTH most slot.old out.old result slot.new out.new }
    ensures counts { counted result ≡ length (items_of (call_at (λ w. with_record beside (λ r. I.from buffer.now r w)) S.state_at S.is_over S.WIDTH slot.old most)) }
{
    if slot.len() < S::WIDTH {
        return Err(Stop::OUTSIDE);
    }
    let start = S::state_in(slot);
    if S::is_over(start) {
        return Err(Stop::Ended);
    }
    let run = fill_over::<S, I>(buffer, beside, start, out, most);
    leave::<S>(slot, run)
}

// The next item, with the state behind it: 14 where the slot is too short for a state, and 101 where it holds the ended one; both leave it as it
// is. Else 14 where `out` is too short for one or there is nothing beside the buffer, then what the step refuses, and 101 where there are no
// more: the slot then holds the ended state, and `out` is as it was.
pub fn next_one<S: Slot, I: Items<S>>(
    buffer: &[u8],
    beside: Result<I::Opened, Refusal>,
    slot: &mut [u8],
    out: &mut [u8],
) -> Result<(), Stop>
    ensures { Called (I.shows buffer.now) I.words (λ w. with_record beside (λ r. I.from buffer.now r w)) I.SIZE S.state_at S.words S.over S.is_over S.WIDTH (one_room I.SIZE out.old) slot.old out.old result slot.new out.new }
{
    let most = one_room(out, I::SIZE);
    call::<S, I>(buffer, beside, slot, out, most)?;
    Ok(())
}

// As many items as `out` has room for, and how many they are: the codes are those of a call for one, with 14 also where the slice for the count
// is too short. What ends them behind an item is told by the next call.
pub fn next_many<S: Slot, I: Items<S>>(
    buffer: &[u8],
    beside: Result<I::Opened, Refusal>,
    slot: &mut [u8],
    out: &mut [u8],
    count: &mut [u8],
) -> Result<(), Stop>
    ensures called { Called (I.shows buffer.now) I.words (λ w. with_record beside (λ r. I.from buffer.now r w)) I.SIZE S.state_at S.words S.over S.is_over S.WIDTH (room_for I.SIZE out.old count.old) slot.old out.old result slot.new out.new }
    ensures counted { count.new ≡ count_after count.old (items_of (call_at (λ w. with_record beside (λ r. I.from buffer.now r w)) S.state_at S.is_over S.WIDTH slot.old (room_for I.SIZE out.old count.old))) }
{
    let most = room_for(out, count, I::SIZE);
    let items = call::<S, I>(buffer, beside, slot, out, most)?;
    put_numbers(count, &[items as u64]);
    Ok(())
}
