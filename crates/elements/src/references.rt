// The references of a way: WayRefIter of the Rust, the running sums of refs. A step refuses a column that is not inside the buffer, and
// varints that are cut or too long.
ghost use Rattle.std.specs.Prelude.{◌≡◌};
ghost use Rattle.columns.specs.InStep.{said_by};
ghost use Rattle.elements.specs.References.{refs_from, ref_said, ref_behind, refs_start};

use crate::element::Element;
use crate::steps::step_of;
use columns::sums::Sum;
use fields::step::Step;
use protobuf::refusal::Refusal;

// A type of its own, since an Option has no methods but its own.
#[derive(Clone, Copy)]
pub enum WayRefIter {
    Ended,
    Refs(Sum<i64>),
}

// The next reference of a way's column, with the state behind it: 14 where the column is outside the buffer, then 2 and 3 of the varint.
fn next_ref(buffer: &[u8], at: Sum<i64>) -> Result<Option<(i64, WayRefIter)>, Refusal>
    ensures { said_by (λ x. x.0) (λ x. refs_from buffer.now x.1) result ≡ refs_from buffer.now (WayRefIter.Refs at) }
{
    let Some(next) = at.next(buffer)? else {
        return Ok(None);
    };
    Ok(Some((next.sum, WayRefIter::Refs(next))))
}

impl WayRefIter {
    // The state before a way's references; of another element the ended one.
    pub fn new(element: Element) -> Self
        ensures { result ≡ refs_start element }
    {
        match element {
            Element::DenseNode(_) => WayRefIter::Ended,
            Element::Node(_) => WayRefIter::Ended,
            Element::Way(v) => WayRefIter::Refs(Sum::start(v.refs)),
            Element::Relation(_) => WayRefIter::Ended,
        }
    }

    // The next reference with the state behind it: 14 where the state's column is outside the buffer, then 2 and 3 of its varints. Behind
    // ended and behind a refusal the state is the ended one, and a step on that says ended whatever the buffer is.
    pub fn step(self, buffer: &[u8]) -> Step<i64, WayRefIter>
        ensures says { ref_said buffer.now result ≡ refs_from buffer.now self }
        ensures behind { ref_behind result ≡ WayRefIter.Ended }
    {
        match self {
            WayRefIter::Ended => step_of(Ok(None), self),
            WayRefIter::Refs(at) => step_of(next_ref(buffer, at), WayRefIter::Ended),
        }
    }
}
