// Columns read whole: how many values they have, and whether the counts of several are equal.
ghost use Rattle.std.specs.Prelude.{◌≡◌};
ghost use Rattle.block.specs.Columns.{count_of};
ghost use Rattle.block.specs.Check.{agreed};
ghost use Rattle.columns.specs.InStep.{ahead};

use protobuf::column::{Column, read_value};
use protobuf::refusal::Refusal;

// How many values a reader of a column has before it: 14 unless its state is inside the bytes, then 2 and 3 of its varints.
pub fn count_values(s: &[u8], column: Column) -> Result<usize, Refusal>
    ensures { result ≡ count_of (ahead s.now column) }
{
    let mut n = 0;
    let mut at = column;
    while let Some((_, next)) = read_value(s, at)? {
        n += 1;
        at = next;
    }
    Ok(n)
}

// Two counts that must be equal: the first one's refusal, then the second one's, then 12. Of three columns, the first with what the other two
// agree on, so that all are read before 12 is given.
// It is not `in_step`, which pairs values: this compares counts.
pub fn agree(a: Result<usize, Refusal>, b: Result<usize, Refusal>) -> Result<usize, Refusal>
    ensures { result ≡ agreed a b }
{
    let m = a?;
    let k = b?;
    if m == k { Ok(m) } else { Err(Refusal::Counts) }
}
