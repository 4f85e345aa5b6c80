// A block through C: its scan, and its strings and groups by their number.
ghost use Rattle.std.specs.Prelude.{◌≡◌, List, ℕ, ◌*◌, ◌^◌, ◌≤◌, ◌<◌, leb, length, take};
ghost use Rattle.numbers.specs.Choose.{choose};
ghost use Rattle.fields.specs.Outcome.{each};
ghost use Rattle.wire.specs.Scan.{scanned, meta};
ghost use Rattle.lookup.specs.Lookup.{string_of, group_of};
ghost use Rattle.answers.specs.Codes.{Answers};
ghost use Rattle.answers.specs.Record.{record_words};
ghost use Rattle.answers.specs.Group.{range_words};
ghost use Rattle.nuorpyts.specs.Block.{scan_after, Scanned-in, get_in, got_code, got_after, group_in};

use answers::codes::{NONE, OUTSIDE};
use answers::layout::{Layout, put_answer};
use answers::record::record_in;
use fields::part::Part;
use lookup::by_number::{get, group};
use protobuf::refusal::Refusal;
use wire::scan::scan;

// The block in the buffer's first `block` bytes is scanned: the record goes to `out`, and the tables go right behind the block. 14 first
// where `out` is shorter than a record; then the scan's refusals, never 13 where the buffer has five times the block's bytes. A refusal writes
// nothing. The last clause holds of every slice: said here, it is part of what a scan leaves, and no claim about another buffer needs it as a
// premise.
#[unsafe(no_mangle)]
pub extern "C" fn nuorpyts_scan(buffer: &mut [u8], block: usize, out: &mut [u8]) -> u32
    ensures answer { Answers 9 record_words out.old (each meta (scanned buffer.old block)) result out.new }
    ensures after { buffer.new ≡ scan_after buffer.old block out.old }
    ensures room { 5 * block ≤ length buffer.old → result ≡ 13 → ⊥ }
    ensures held { length buffer.old < 2 ^ 64 }
{
    if out.len() < 72 {
        return OUTSIDE;
    }
    put_answer(out, scan(buffer, block))
}

// A range that was looked up, or none, into an answer's slice; and its code.
pub(crate) fn give_range(got: Result<Option<Part>, Refusal>, out: &mut [u8]) -> u32
    ensures code { result ≡ got_code got }
    ensures after { out.new ≡ got_after out.old got }
{
    match got {
        Err(n) => u32::from(n),
        Ok(None) => NONE,
        Ok(Some(part)) => {
            Layout::<2>::put(part, out);
            0
        }
    }
}

// The string of a number, by the record in a slice.
fn get_in(buffer: &[u8], rec: &[u8], index: usize) -> Result<Option<Part>, Refusal>
    ensures { result ≡ get_in buffer.now rec.now index }
{
    let block = record_in(rec)?;
    get(buffer, block, index)
}

// The range of the string of a number: start and length go to `out`. 14 first where `out` is shorter than them or `rec` is no record; then
// 100 where there is no such string, and 14 where its range passes the buffer. On the buffer and the record that `nuorpyts_scan` left, it is
// the block's own string of that number, and 100 at the count and behind it.
#[unsafe(no_mangle)]
pub extern "C" fn nuorpyts_get(buffer: &[u8], rec: &[u8], index: usize, out: &mut [u8]) -> u32
    ensures code { result ≡ choose (leb 16 (length out.old)) (got_code (get_in buffer.now rec.now index)) 14 }
    ensures after { out.new ≡ got_after out.old (get_in buffer.now rec.now index) }
    ensures scanned { (b : List ℕ) (n : ℕ) → Scanned-in buffer.now rec.now b n → (result ≡ choose (leb 16 (length out.old)) (got_code (string_of (take n b) index)) 14) × (out.new ≡ got_after out.old (string_of (take n b) index)) }
{
    if out.len() < 16 {
        return OUTSIDE;
    }
    give_range(get_in(buffer, rec, index), out)
}

// The group of a number, by the record in a slice.
fn group_in(buffer: &[u8], rec: &[u8], index: usize) -> Result<Part, Refusal>
    ensures { result ≡ group_in buffer.now rec.now index }
{
    let block = record_in(rec)?;
    group(buffer, block, index)
}

// The range of the group of a number: start and length go to `out`. 14 where `out` is shorter than them, `rec` is no record or is not inside
// the buffer, there is no such group, or its range passes the buffer. On the buffer and the record that `nuorpyts_scan` left, it is the
// block's own group of that number, and 14 at the count and behind it.
#[unsafe(no_mangle)]
pub extern "C" fn nuorpyts_group(buffer: &[u8], rec: &[u8], index: usize, out: &mut [u8]) -> u32
    ensures answer { Answers 2 range_words out.old (group_in buffer.now rec.now index) result out.new }
    ensures scanned { (b : List ℕ) (n : ℕ) → Scanned-in buffer.now rec.now b n → Answers 2 range_words out.old (group_of (take n b) index) result out.new }
{
    if out.len() < 16 {
        return OUTSIDE;
    }
    put_answer::<2, Part>(out, group_in(buffer, rec, index))
}
