// The check of a scanned block through C.
ghost use Rattle.std.specs.Prelude.{◌≡◌, List, ℕ, take};
ghost use Rattle.block.specs.Check.{checked};
ghost use Rattle.answers.specs.Codes.{code_of};
ghost use Rattle.nuorpyts.specs.Block.{Scanned-in};
ghost use Rattle.nuorpyts.specs.Check.{check_in, check_code};

use accept::check::check;
use answers::record::record_in;
use protobuf::refusal::Refusal;

// The check, by the record in a slice.
fn check_in(buffer: &[u8], rec: &[u8]) -> Result<(), Refusal>
    ensures { result ≡ check_in buffer.now rec.now }
{
    let block = record_in(rec)?;
    check(buffer, block)
}

// Whether a scanned block may be walked: 0 where it may. 14 first where `rec` is no record; then the check's refusals. On the buffer and
// the record that `nuorpyts_scan` left, the code is that of the block's own bytes. It has no slice to put an answer into.
#[unsafe(no_mangle)]
pub extern "C" fn nuorpyts_check(buffer: &[u8], rec: &[u8]) -> u32
    ensures code { result ≡ check_code buffer.now rec.now }
    ensures scanned { (b : List ℕ) (n : ℕ) → Scanned-in buffer.now rec.now b n → result ≡ code_of (checked (take n b)) }
{
    let checked = check_in(buffer, rec);
    match checked {
        Ok(()) => 0,
        Err(n) => u32::from(n),
    }
}
