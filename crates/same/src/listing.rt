// The driver over two blocks: both checks, and then both walks in step.
ghost use Rattle.std.specs.Prelude.{◌≡◌, List, ℕ, take};
ghost use Rattle.block.specs.Content.{content};
ghost use Rattle.walk.specs.Whole.{Accepted, Whole};
ghost use Rattle.same.specs.Compared.{Told};
ghost use Rattle.same.specs.Listing.{both_checked, same_listing};

use crate::walks::same_walks;
use accept::check::check;
use protobuf::refusal::Refusal;
use wire::record::WireBlock;

// What two checks come to: 14 of either, then the first's number, then the second's.
fn both_checked(x: Result<(), Refusal>, y: Result<(), Refusal>) -> Result<(), Refusal>
    ensures { result ≡ both_checked x y }
{
    let Err(_) = x else {
        return y;
    };
    let Err(n) = y else {
        return x;
    };
    if n == Refusal::Outside { y } else { x }
}

// Whether two scanned blocks list the same: 14 where either record, a table or a group's entry is outside its buffer; then the first's number
// of the check, then the second's; then the first number that a walk meets, in step; else yes or no. On the buffers and records that scans
// left of two accepted blocks it is never a number, and yes exactly where their contents are equal.
pub fn same_listing(
    first: &[u8],
    a: WireBlock,
    second: &[u8],
    b: WireBlock,
) -> Result<bool, Refusal>
    ensures answer { result ≡ same_listing first.now a second.now b }
    ensures decides { (b1 : List ℕ) (n1 : ℕ) (b2 : List ℕ) (n2 : ℕ) → Accepted first.now a b1 n1 → Accepted second.now b b2 n2 → Told (content (take n1 b1) ≡ content (take n2 b2)) result }
    ensures whole { (b1 : List ℕ) (n1 : ℕ) (b2 : List ℕ) (n2 : ℕ) → Accepted first.now a b1 n1 → Accepted second.now b b2 n2 → Whole first.now a b1 n1 second.now b b2 n2 }
{
    let x = check(first, a);
    let y = check(second, b);
    both_checked(x, y)?;
    same_walks(first, a, second, b)
}
