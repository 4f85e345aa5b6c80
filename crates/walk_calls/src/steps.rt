// The elements of a block, called through C.
ghost use Rattle.std.specs.Prelude.{◌≡◌, ◌*◌, ◌≤◌, length, leb};
ghost use Rattle.numbers.specs.Choose.{choose};
ghost use Rattle.answers.specs.Words.{filled};
ghost use Rattle.answers.specs.Codes.{code_by};
ghost use Rattle.walk.specs.declared.state.BlockElementsIter.{BlockElementsIter};
ghost use Rattle.walk.specs.Walk.{Found, elements_from, fresh};
ghost use Rattle.calls.specs.Calls.{one_room, room_for, call_code, items_of, count_after, SlotLeft};
ghost use Rattle.calls.specs.Items.{counted, CalledBy};
ghost use Rattle.walk_slots.specs.Slot.{walk_words, nodes_at, walk_at};
ghost use Rattle.walk_calls.specs.Fills.{StateInto, RefusedInto};
ghost use Rattle.walk_calls.specs.Steps.{Put, found_by, put_words, put_small, ElementsIn, walk_in, walk_call, block_call};

use crate::messages::put_messages_of;
use crate::nodes::put_nodes_of;
use answers::codes::Stop;
use answers::record::record_in;
use answers::words::put_numbers;
use calls::items::Items;
use calls::next::{fill, leave};
use calls::room::{one_room, room_for};
use calls::slot::Slot;
use kinds::state::Messages;
use layouts::element::put_element;
use walk::block_elements::Said;
use walk::state::{BlockElementsIter, DenseNodeIter};
use walk_slots::slot::{PhaseIn, WalkState, nodes_in, phase_in, put_messages, put_nodes};
use wire::record::WireBlock;

// Elements, 208 bytes each, over the record of a block.
pub struct Elements;

impl Items<WalkState> for Elements {
    type Opened = WireBlock;

    const SIZE: usize = 208;

    ghost SIZE = { 208 };

    ghost Item = { Found };

    ghost Put = { Put };

    ghost shows = { found_by };

    ghost words = { put_words };

    ghost from = { elements_from };

    fn put_one(
        buffer: &[u8],
        block: WireBlock,
        state: BlockElementsIter,
        out: &mut [u8],
        at: usize,
    ) -> Result<BlockElementsIter, Stop> {
        let r = state.step(buffer, block);
        let next = r.next;
        let said = r.said;
        match said {
            Said::Refused(refusal) => Err(Stop::Refused(refusal)),
            Said::Ended => Err(Stop::Ended),
            Said::Element {
                group,
                message,
                element,
            } => {
                put_element(out, at, group, message, element);
                Ok(next)
            }
        }
    }

    ghost small = { put_small };
}

// Behind the first `from` elements, by steps, with the state behind them in the slot.
fn state_into(
    buffer: &[u8],
    block: WireBlock,
    state: BlockElementsIter,
    slot: &mut [u8],
    out: &mut [u8],
    from: usize,
    most: usize,
) -> Result<usize, Stop>
    requires { (272 ≤ length slot.old) × ((from ≤ most) × (208 * most ≤ length out.old)) }
    ensures { StateInto buffer.now (elements_from buffer.now block) most from state slot.old out.old result slot.new out.new }
{
    let run = fill::<WalkState, Elements>(buffer, block, state, out, from, most);
    leave::<WalkState>(slot, run)
}

// A call whose slot holds plain dense nodes: where they take the room whole, no other state than theirs is made.
fn nodes_into(
    buffer: &[u8],
    block: WireBlock,
    slot: &mut [u8],
    out: &mut [u8],
    most: usize,
) -> Result<usize, Stop>
    requires in_bounds { (272 ≤ length slot.old) × (208 * most ≤ length out.old) }
    requires slot_value { BlockElementsIter.DenseNodes (nodes_at slot.old) ≡ walk_at slot.old }
    ensures called { CalledBy (found_by buffer.now) put_words (elements_from buffer.now block) 208 walk_at walk_words BlockElementsIter.Ended (block_call buffer.now block slot.old most) slot.old out.old result slot.new out.new }
    ensures counts { counted result ≡ length (items_of (block_call buffer.now block slot.old most)) }
{
    let nodes = nodes_in(slot);
    let f = put_nodes_of(buffer, block, nodes, out, most);
    let behind = DenseNodeIter {
        columns: f.next,
        ..nodes
    };
    if 0 < f.count {
        if f.count == most {
            put_nodes(slot, behind);
            return Ok(f.count);
        }
    }
    let state = BlockElementsIter::DenseNodes(behind);
    state_into(buffer, block, state, slot, out, f.count, most)
}

// The same of messages.
fn messages_into(
    buffer: &[u8],
    block: WireBlock,
    m: Messages,
    slot: &mut [u8],
    out: &mut [u8],
    most: usize,
) -> Result<usize, Stop>
    requires in_bounds { (272 ≤ length slot.old) × (208 * most ≤ length out.old) }
    requires m_value { BlockElementsIter.Messages m ≡ walk_at slot.old }
    ensures called { CalledBy (found_by buffer.now) put_words (elements_from buffer.now block) 208 walk_at walk_words BlockElementsIter.Ended (block_call buffer.now block slot.old most) slot.old out.old result slot.new out.new }
    ensures counts { counted result ≡ length (items_of (block_call buffer.now block slot.old most)) }
{
    let f = put_messages_of(buffer, block, m, out, most);
    let behind = Messages { at: f.next, ..m };
    if 0 < f.count {
        if f.count == most {
            put_messages(slot, behind);
            return Ok(f.count);
        }
    }
    let state = BlockElementsIter::Messages(behind);
    state_into(buffer, block, state, slot, out, f.count, most)
}

// A call over a record, by what the slot's first numbers tell.
fn block_into(
    buffer: &[u8],
    block: WireBlock,
    slot: &mut [u8],
    out: &mut [u8],
    most: usize,
) -> Result<usize, Stop>
    requires { (272 ≤ length slot.old) × (208 * most ≤ length out.old) }
    ensures called { CalledBy (found_by buffer.now) put_words (elements_from buffer.now block) 208 walk_at walk_words BlockElementsIter.Ended (block_call buffer.now block slot.old most) slot.old out.old result slot.new out.new }
    ensures counts { counted result ≡ length (items_of (block_call buffer.now block slot.old most)) }
{
    let phase = phase_in(slot);
    match phase {
        PhaseIn::Ended => {
            return Err(Stop::Ended);
        }
        PhaseIn::DenseNodes => return nodes_into(buffer, block, slot, out, most),
        PhaseIn::Messages(m) => return messages_into(buffer, block, m, slot, out, most),
        _ => {
            let state = WalkState::state_in(slot);
            return state_into(buffer, block, state, slot, out, 0, most);
        }
    }
}

// A call without a record: 14, but an ended walk stays ended.
fn none_into(slot: &mut [u8]) -> Stop
    requires { 272 ≤ length slot.old }
    ensures { RefusedInto slot.old result slot.new }
{
    let phase = phase_in(slot);
    match phase {
        PhaseIn::Ended => Stop::Ended,
        _ => {
            WalkState::put_state(slot, BlockElementsIter::Ended);
            Stop::OUTSIDE
        }
    }
}

// A call with room for `most` elements. It is not the one by a state in a slot, since the state of dense nodes and of messages is made only where
// the room is not taken whole; and that one can't be a method which elements override, since the check refuses its bound.
fn steps_into(
    buffer: &[u8],
    rec: &[u8],
    slot: &mut [u8],
    out: &mut [u8],
    most: usize,
) -> Result<usize, Stop>
    requires { 208 * most ≤ length out.old }
    ensures called { CalledBy (found_by buffer.now) put_words (walk_in buffer.now rec.now) 208 walk_at walk_words BlockElementsIter.Ended (walk_call buffer.now rec.now slot.old most) slot.old out.old result slot.new out.new }
    ensures counts { counted result ≡ length (items_of (walk_call buffer.now rec.now slot.old most)) }
{
    if slot.len() < 272 {
        return Err(Stop::OUTSIDE);
    }
    let r = record_in(rec);
    match r {
        Err(_) => {
            return Err(none_into(slot));
        }
        Ok(block) => return block_into(buffer, block, slot, out, most),
    }
}

// The walk at its start, plain or full, in a slot: 14 where that is too short, which leaves it as it is.
pub fn start_walk(slot: &mut [u8], full: bool) -> Result<(), Stop>
    ensures code { code_by result ≡ choose (leb 272 (length slot.old)) 0 14 }
    ensures next { slot.new ≡ choose (leb 272 (length slot.old)) (filled slot.old (walk_words (fresh full))) slot.old }
    ensures back { code_by result ≡ 0 → walk_at slot.new ≡ fresh full }
{
    if slot.len() < 272 {
        return Err(Stop::OUTSIDE);
    }
    if full {
        WalkState::put_state(slot, BlockElementsIter::new());
    } else {
        WalkState::put_state(slot, BlockElementsIter::new_skip_metadata());
    }
    Ok(())
}

// The next element, with the state behind it: 14 where the slot is too short for a state, and 101 where it holds the ended one; both leave
// it as it is. Else 14 where `out` is too short for an element or `rec` is no record, then what the step refuses, and 101 where there are no
// more: the slot then holds the ended state, and `out` is as it was.
pub fn next_step(buffer: &[u8], rec: &[u8], slot: &mut [u8], out: &mut [u8]) -> Result<(), Stop>
    ensures code { code_by result ≡ call_code (walk_call buffer.now rec.now slot.old (one_room 208 out.old)) }
    ensures next { SlotLeft walk_at walk_words BlockElementsIter.Ended (walk_in buffer.now rec.now) slot.old (walk_call buffer.now rec.now slot.old (one_room 208 out.old)) slot.new }
    ensures after { ElementsIn buffer.now out.old (items_of (walk_call buffer.now rec.now slot.old (one_room 208 out.old))) out.new }
{
    let most = one_room(out, 208);
    steps_into(buffer, rec, slot, out, most)?;
    Ok(())
}

// As many elements as `out` has room for, and how many they are: the codes are those of a call for one, with 14 also where the slice for the
// count is too short. What ends them behind an element is told by the next call.
pub fn next_steps(
    buffer: &[u8],
    rec: &[u8],
    slot: &mut [u8],
    out: &mut [u8],
    count: &mut [u8],
) -> Result<(), Stop>
    ensures code { code_by result ≡ call_code (walk_call buffer.now rec.now slot.old (room_for 208 out.old count.old)) }
    ensures next { SlotLeft walk_at walk_words BlockElementsIter.Ended (walk_in buffer.now rec.now) slot.old (walk_call buffer.now rec.now slot.old (room_for 208 out.old count.old)) slot.new }
    ensures after { ElementsIn buffer.now out.old (items_of (walk_call buffer.now rec.now slot.old (room_for 208 out.old count.old))) out.new }
    ensures counted { count.new ≡ count_after count.old (items_of (walk_call buffer.now rec.now slot.old (room_for 208 out.old count.old))) }
{
    let most = room_for(out, count, 208);
    let items = steps_into(buffer, rec, slot, out, most)?;
    put_numbers(count, &[items as u64]);
    Ok(())
}
