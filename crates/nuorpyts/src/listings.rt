// Whether two scanned blocks list the same, through C.
ghost use Rattle.std.specs.Prelude.{◌≡◌, List, ℕ, ◌≤◌, length, take};
ghost use Rattle.block.specs.Content.{content};
ghost use Rattle.answers.specs.Codes.{Answers};
ghost use Rattle.nuorpyts.specs.Chains.{Accepted-in};
ghost use Rattle.nuorpyts.specs.Same.{same_in, same_words, SameTold};

use answers::codes::OUTSIDE;
use answers::layout::put_answer;
use answers::record::record_in;
use protobuf::refusal::Refusal;
use same::listing::same_listing;

// Whether two scanned blocks list the same, by the records in two slices.
fn same_in(first: &[u8], a: &[u8], second: &[u8], b: &[u8]) -> Result<bool, Refusal>
    ensures { result ≡ same_in first.now a.now second.now b.now }
{
    let x = record_in(a)?;
    let y = record_in(b)?;
    same_listing(first, x, second, y)
}

// Whether two scanned blocks list the same: 1 goes to `out` where they do, 0 where they do not. 14 first where `out` is shorter than the
// number, then where `a` is no record, then where `b` is none; then what `same_listing` refuses. A refusal writes nothing. On the buffers and
// the records that `nuorpyts_scan` left of two blocks that the check accepts nothing is refused, and it is 1 exactly where their contents
// are equal.
#[unsafe(no_mangle)]
pub extern "C" fn nuorpyts_same_listing(
    first: &[u8],
    a: &[u8],
    second: &[u8],
    b: &[u8],
    out: &mut [u8],
) -> u32
    ensures answer { Answers 1 same_words out.old (same_in first.now a.now second.now b.now) result out.new }
    ensures decides { (b1 : List ℕ) (n1 : ℕ) (b2 : List ℕ) (n2 : ℕ) → 8 ≤ length out.old → Accepted-in first.now a.now b1 n1 → Accepted-in second.now b.now b2 n2 → SameTold (content (take n1 b1) ≡ content (take n2 b2)) out.old result out.new }
{
    if out.len() < 8 {
        return OUTSIDE;
    }
    put_answer(out, same_in(first, a, second, b))
}
