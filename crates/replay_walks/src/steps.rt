// A walk in an answer's text: the elements that its steps hand out, and how it ends.
use crate::followed::Followed;
use crate::lists::{Answer, List, Walked};
use elements::element::Element;
use fields::step::Step;
use protobuf::refusal::Refusal;
use std::fmt;
use walk::block_elements::{ElementStep, Said};
use walk::state::BlockElementsIter;

// A walk, and whether its next step is made by `next` or by `step`.
#[derive(Clone, Copy)]
struct Walk {
    state: BlockElementsIter,
    by_next: bool,
}

// An element, and the number of its group.
#[derive(Clone, Copy)]
struct Found {
    group: usize,
    element: Element,
}

// What a step said: an element, the end, or a refusal.
fn said_of(said: Said) -> Result<Option<Found>, Refusal> {
    match said {
        Said::Ended => Ok(None),
        Said::Refused(refusal) => Err(refusal),
        Said::Element {
            group,
            message: _,
            element,
        } => Ok(Some(Found { group, element })),
    }
}

impl Walk {
    fn start(of: Walked) -> Walk {
        let state = if of.full {
            BlockElementsIter::new()
        } else {
            BlockElementsIter::new_skip_metadata()
        };
        Walk {
            state,
            by_next: of.other,
        }
    }

    fn step(self, of: Walked) -> ElementStep {
        if self.by_next {
            self.state.next(of.s, of.block)
        } else {
            self.state.step(of.s, of.block)
        }
    }

    // Whether the next step says ended.
    fn has_ended(self, of: Walked) -> bool {
        let step = self.state.step(of.s, of.block);
        let said = step.said;
        match said {
            Said::Ended => true,
            _ => false,
        }
    }
}

impl List for Walk {
    type Item = Found;

    fn advance(self, of: Walked) -> Step<Found, Walk> {
        let step = self.step(of);
        let said = step.said;
        Step {
            said: said_of(said),
            next: Walk {
                state: step.next,
                by_next: !self.by_next,
            },
        }
    }

    fn follow(answer: &mut Answer, found: Found) -> fmt::Result {
        let element = found.element;
        answer.element(found.group, element)
    }
}

// A block's walk, by `step` and `next` in turn: the refusal that ended it. It has to give the whole text, and the state behind its end has to
// be the ended one, else it is an error.
pub(crate) fn follow_walk(text: &[u8], of: Walked) -> Result<Option<Refusal>, fmt::Error> {
    let mut answer = Answer {
        text: Followed::new(text),
        of,
    };
    let (refusal, behind) = answer.list(Walk::start(of))?;
    if answer.text.is_whole() && behind.has_ended(of) {
        Ok(refusal)
    } else {
        Err(fmt::Error)
    }
}
