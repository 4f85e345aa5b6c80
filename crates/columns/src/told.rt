// What two readers in step tell.
ghost use Rattle.std.specs.Prelude.{◌≡◌};
ghost use Rattle.columns.specs.InStep.{in_step};

use protobuf::refusal::Refusal;

// What two readers in step tell, of which the first is read first: a value of each where both have one, none where both have ended, 12 where only
// one has. A refusal of either comes before 12.
pub fn in_step<A: Drop, B: Drop>(
    a: Result<Option<A>, Refusal>,
    b: Result<Option<B>, Refusal>,
) -> Result<Option<(A, B)>, Refusal>
    ensures { result ≡ in_step a b }
{
    match (a?, b?) {
        (None, None) => Ok(None),
        (Some(x), Some(y)) => Ok(Some((x, y))),
        _ => Err(Refusal::Counts),
    }
}
