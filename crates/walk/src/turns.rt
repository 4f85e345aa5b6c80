// One turn of a walk: it moves to another state in silence, or there is something to say. Each is built by a function of its own, so that those
// which branch hold no half of an answer.
ghost use Rattle.std.specs.Prelude.{◌≡◌};
ghost use Rattle.walk.specs.Moves.{moves_to, moves_out, moves_refused, moves_with};

use crate::block_elements::Said;
use crate::state::BlockElementsIter;
use elements::element::Element;
use fields::part::Part;
use protobuf::refusal::Refusal;

// With the state behind it, whichever it is. Where it is quiet, what it says is not told.
#[derive(Clone, Copy)]
pub struct Move {
    pub quiet: bool,
    pub said: Said,
    pub next: BlockElementsIter,
}

// To a state, in silence.
pub(crate) fn move_to(next: BlockElementsIter) -> Move
    ensures { result ≡ moves_to next }
{
    Move {
        quiet: true,
        said: Said::Ended,
        next,
    }
}

// The end of the walk.
pub(crate) fn move_out() -> Move
    ensures { result ≡ moves_out }
{
    Move {
        quiet: false,
        said: Said::Ended,
        next: BlockElementsIter::Ended,
    }
}

// Its refusal.
pub(crate) fn move_refused(refusal: Refusal) -> Move
    ensures { result ≡ moves_refused refusal }
{
    Move {
        quiet: false,
        said: Said::Refused(refusal),
        next: BlockElementsIter::Ended,
    }
}

// An element, with the state behind it.
pub(crate) fn move_with(
    group: usize,
    message: Part,
    element: Element,
    next: BlockElementsIter,
) -> Move
    ensures { result ≡ moves_with group message element next }
{
    Move {
        quiet: false,
        said: Said::Element {
            group,
            message,
            element,
        },
        next,
    }
}
