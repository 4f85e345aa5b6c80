// What a reader tells as a step over its state.
ghost use Rattle.std.specs.Prelude.{◌≡◌};
ghost use Rattle.elements.specs.Steps.{step_by};

use fields::step::Step;
use protobuf::refusal::Refusal;

// An answer that holds the state behind an item, as a step: behind the end and behind a refusal the state is the ended one.
pub(crate) fn step_of<T: Copy, S: Copy>(
    told: Result<Option<(T, S)>, Refusal>,
    ended: S,
) -> Step<T, S>
    ensures { result ≡ step_by ended told }
{
    match told {
        Err(refusal) => Step {
            said: Err(refusal),
            next: ended,
        },
        Ok(None) => Step {
            said: Ok(None),
            next: ended,
        },
        Ok(Some((item, next))) => Step {
            said: Ok(Some(item)),
            next,
        },
    }
}
