// The plain walks of two blocks in step.
ghost use Rattle.std.specs.Prelude.{◌≡◌, true};
ghost use Rattle.lookup.specs.Lookup.{is_record_inside};
ghost use Rattle.walk.specs.Walk.{Found, elements_from};
ghost use Rattle.walk.specs.Same.{same_element, same_walks};
ghost use Rattle.same.specs.Heads.{found_by};
ghost use Rattle.same.specs.Walks.{placed_said};

use crate::items::same_element;
use crate::records::same_record;
use crate::streams::{Stream, same_streams};
use elements::element::Element;
use fields::part::Part;
use fields::step::Step;
use protobuf::refusal::Refusal;
use walk::block_elements::Said;
use walk::state::BlockElementsIter;
use wire::record::WireBlock;

// An element with its group's number and its message's part.
#[derive(Clone, Copy)]
pub(crate) struct Placed {
    group: usize,
    message: Part,
    element: Element,
}

// What was said, as any stream says it.
fn said_of(said: Said) -> Result<Option<Placed>, Refusal>
    ensures { result ≡ placed_said said }
{
    match said {
        Said::Element {
            group,
            message,
            element,
        } => Ok(Some(Placed {
            group,
            message,
            element,
        })),
        Said::Ended => Ok(None),
        Said::Refused(refusal) => Err(refusal),
    }
}

// The elements of a walk are handed out where the record is inside.
impl Stream for BlockElementsIter {
    type Item = Placed;

    ghost Shown = { Found };

    ghost shown = { λ s e. found_by s e.group e.message e.element };

    ghost from = { elements_from };

    ghost same = { same_element };

    ghost stands = { λ s r e. is_record_inside s r ≡ true };

    fn step(self, buffer: &[u8], block: WireBlock) -> Step<Placed, BlockElementsIter> {
        let step = self.step(buffer, block);
        Step {
            said: said_of(step.said),
            next: step.next,
        }
    }

    fn same(
        first: &[u8],
        a: WireBlock,
        x: Placed,
        second: &[u8],
        b: WireBlock,
        y: Placed,
    ) -> Result<bool, Refusal> {
        same_element(first, a, x.group, x.element, second, b, y.group, y.element)
    }
}

// What two plain walks list: the records' numbers, and then the elements.
pub(crate) fn same_walks(
    first: &[u8],
    a: WireBlock,
    second: &[u8],
    b: WireBlock,
) -> Result<bool, Refusal>
    ensures { result ≡ same_walks first.now a second.now b }
{
    if !same_record(a, b) {
        return Ok(false);
    }
    let here = BlockElementsIter::new_skip_metadata();
    let there = BlockElementsIter::new_skip_metadata();
    same_streams(first, a, here, second, b, there)
}
