// The references of a way, called through C.
ghost use Rattle.std.specs.Prelude.{◌≡◌, ℤ};
ghost use lib.Dec.{lit≤};
ghost use Rattle.elements.specs.declared.references.WayRefIter.{WayRefIter};
ghost use Rattle.elements.specs.References.{refs_from};
ghost use Rattle.calls.specs.Calls.{one_room};
ghost use Rattle.calls.specs.Items.{Called, Served};
ghost use Rattle.calls.specs.References.{ref_words, refs_at, ref_item, refs_over};

use crate::ended::is_at_end;
use crate::items::Items;
use crate::next::next_one;
use crate::run::Run;
use crate::slot::{Slot, sum_in};
use answers::codes::Stop;
use answers::words::{put_at, put_numbers};
use columns::sums::Sum;
use elements::references::WayRefIter;
use fields::step::Step;
use numbers::little::Little;
use numbers::signed::Signed;
use protobuf::column::{Column, wide_value};

// The state in a slot's first 32 bytes.
pub struct RefState;

impl Slot for RefState {
    type State = WayRefIter;

    const WIDTH: usize = 32;

    ghost WIDTH = { 32 };

    ghost words = { ref_words };

    ghost state_at = { refs_at };

    ghost over = { WayRefIter.Ended };

    ghost is_over = { refs_over };

    fn over() -> WayRefIter {
        WayRefIter::Ended
    }

    fn is_over(state: WayRefIter) -> bool {
        match state {
            WayRefIter::Ended => true,
            WayRefIter::Refs(_) => false,
        }
    }

    // Of an ended one the other numbers are not looked at.
    fn state_in(slot: &[u8]) -> WayRefIter {
        match u64::read(slot, 0) {
            0 => WayRefIter::Ended,
            1 => WayRefIter::Refs(sum_in(slot, 8, 16, 24)),
            _ => WayRefIter::Refs(Sum {
                column: Column { at: 1, end: 0 },
                sum: 0,
            }),
        }
    }

    fn put_state(slot: &mut [u8], state: WayRefIter) {
        match state {
            WayRefIter::Ended => put_numbers(slot, &[0, 0, 0, 0]),
            WayRefIter::Refs(c) => {
                let column = c.column;
                put_numbers(
                    slot,
                    &[1, column.at as u64, column.end as u64, c.sum.bits()],
                );
            }
        }
    }
}

// References, one number each.
pub struct Refs;

impl Items<RefState> for Refs {
    type Opened = ();

    const SIZE: usize = 8;

    ghost SIZE = { 8 };

    ghost Item = { ℤ };

    ghost Put = { ℤ };

    ghost shows = { λ s id. id };

    ghost words = { ref_item };

    ghost from = { λ s none. refs_from s };

    fn put_one(
        buffer: &[u8],
        _opened: (),
        state: WayRefIter,
        out: &mut [u8],
        at: usize,
    ) -> Result<WayRefIter, Stop> {
        let Step { said, next } = state.step(buffer);
        let Some(id) = said? else {
            return Err(Stop::Ended);
        };
        put_at(out, at, &[id.bits()]);
        Ok(next)
    }

    // The reader's place and sum are numbers of the loop: a state would pass through memory for each reference.
    fn put_short(
        buffer: &[u8],
        _opened: (),
        start: WayRefIter,
        out: &mut [u8],
        first: usize,
        most: usize,
    ) -> Run<WayRefIter> {
        let WayRefIter::Refs(c) = start else {
            return Run {
                count: first,
                next: start,
            };
        };
        let end = c.column.end;
        let mut at = c.column.at;
        let mut sum = c.sum;
        let mut count = first;
        while count < most {
            let word = wide_value(buffer, at, end);
            if word == 0 {
                break;
            }
            at += (word % 16) as usize;
            sum = sum.plus(i64::of_zigzag(word / 16));
            put_at(out, 8 * count, &[sum.bits()]);
            count += 1;
        }
        Run {
            count,
            next: WayRefIter::Refs(Sum {
                column: Column { at, end },
                sum,
            }),
        }
    }

    fn has_ended(buffer: &[u8], _opened: (), state: WayRefIter) -> bool {
        match state {
            WayRefIter::Ended => true,
            WayRefIter::Refs(c) => is_at_end(buffer, c.column),
        }
    }

    ghost small = { λ id. lit≤ tt };
}

// The next reference by a short way over the slot itself. Where it serves, the reference is put and the slot holds the state behind it; else
// nothing is written, and the call is made by the state. A bool, here and wherever a short way is tried: what is handed out stands in the
// slices.
fn put_short_ref(buffer: &[u8], slot: &mut [u8], out: &mut [u8]) -> bool
    ensures { Served (λ id. id) ref_item (refs_from buffer.now) 8 refs_at ref_words WayRefIter.Ended refs_over 32 (one_room 8 out.old) slot.old out.old result slot.new out.new }
{
    if slot.len() < 32 {
        return false;
    }
    if out.len() < 8 {
        return false;
    }
    if u64::read(slot, 0) != 1 {
        return false;
    }
    let at = u64::read(slot, 8) as usize;
    let end = u64::read(slot, 16) as usize;
    let word = wide_value(buffer, at, end);
    if word == 0 {
        return false;
    }
    let next = at + (word % 16) as usize;
    let before = u64::read(slot, 24);
    let sum = i64::of_bits(before).plus(i64::of_zigzag(word / 16));
    let bits = sum.bits();
    put_numbers(out, &[bits]);
    put_numbers(slot, &[1, next as u64, end as u64, bits]);
    true
}

// The next reference, by the short way where that serves.
pub fn next_ref(buffer: &[u8], slot: &mut [u8], out: &mut [u8]) -> Result<(), Stop>
    ensures { Called (λ id. id) ref_item (refs_from buffer.now) 8 refs_at ref_words WayRefIter.Ended refs_over 32 (one_room 8 out.old) slot.old out.old result slot.new out.new }
{
    if put_short_ref(buffer, slot, out) {
        return Ok(());
    }
    next_one::<RefState, Refs>(buffer, Ok(()), slot, out)
}
