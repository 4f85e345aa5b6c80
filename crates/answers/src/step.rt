// A step over a group's messages of one field, whose state stands in a slot that the caller lends.
ghost use Rattle.std.specs.Prelude.{◌≡◌};
ghost use Rattle.answers.specs.Codes.{code_by};
ghost use Rattle.answers.specs.Messages.{
  place_asked,
  step_state,
  message_asked,
  message_code,
  message_state,
  message_out,
};

use crate::codes::Stop;
use crate::group::{MessagesIn, messages_in};
use crate::layout::Layout;
use groups::group::{MessagePlace, WireMessageIter};

// The step of a state that has not ended: 14 where `out` is too short for a part, then what the iterator answers. The state that it hands
// back goes into the slot; after 14 for `out` too that is the ended one.
fn step_message(
    buffer: &[u8],
    place: MessagePlace,
    state: &mut [u8],
    out: &mut [u8],
) -> Result<(), Stop>
    ensures code { code_by result ≡ message_code (place_asked buffer.now out.old place) }
    ensures next { state.new ≡ step_state state.old (place_asked buffer.now out.old place) }
    ensures after { out.new ≡ message_out out.old (place_asked buffer.now out.old place) }
{
    if out.len() < 24 {
        WireMessageIter::Ended.put(state);
        return Err(Stop::OUTSIDE);
    }
    let iter = WireMessageIter::At(place);
    let step = iter.step(buffer);
    step.next.put(state);
    let Some(part) = step.said? else {
        return Err(Stop::Ended);
    };
    Layout::<3>::put(part, out);
    Ok(())
}

// The next message of the state's field, as a part, with the state behind it: 14 where the slot is too short for a state; 101 where it is
// an ended one, and both leave it as it is. Else 14 where no state has its numbers or `out` is too short for a part, then what the
// iterator's step refuses, and 101 where it has ended: the slot then holds the ended state, and `out` is as it was.
pub fn message(buffer: &[u8], state: &mut [u8], out: &mut [u8]) -> Result<(), Stop>
    ensures code { code_by result ≡ message_code (message_asked buffer.now state.old out.old) }
    ensures next { state.new ≡ message_state buffer.now state.old out.old }
    ensures after { out.new ≡ message_out out.old (message_asked buffer.now state.old out.old) }
{
    let slot = messages_in(state);
    match slot {
        MessagesIn::Short => Err(Stop::OUTSIDE),
        MessagesIn::Ended => Err(Stop::Ended),
        MessagesIn::Outside => {
            WireMessageIter::Ended.put(state);
            Err(Stop::OUTSIDE)
        }
        MessagesIn::At(place) => step_message(buffer, place, state, out),
    }
}
