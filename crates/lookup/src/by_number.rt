// Strings and groups by their number, through the tables behind a block.
ghost use Rattle.std.specs.Prelude.{◌≡◌, List, ℕ, ◌+◌, ◌*◌, ◌≤◌, leb, length, take, Ok, Err};
ghost use Rattle.protobuf.specs.declared.refusal.Refusal.TheVariants.{Outside};
ghost use Rattle.numbers.specs.Choose.{choose};
ghost use Rattle.fields.specs.Part.{is_inside};
ghost use Rattle.wire.specs.Scan.{Scanned-as};
ghost use Rattle.lookup.specs.Lookup.{entry_at, get_at, is_record_inside, group_at, string_of, group_of};

use fields::part::{Part, part_fits};
use numbers::little::Little;
use protobuf::refusal::Refusal;
use wire::record::WireBlock;

// The part that a table's entry names.
fn entry_at(s: &[u8], place: usize) -> Part
    requires { place + 8 ≤ length s.now }
    ensures { result ≡ entry_at s.now place }
{
    Part {
        present: true,
        start: u32::read(s, place) as usize,
        len: u32::read(s, place + 4) as usize,
    }
}

// The part that a table's entry names: 14 where its range passes the buffer.
fn named(buffer: &[u8], place: usize) -> Result<Part, Refusal>
    requires { place + 8 ≤ length buffer.now }
    ensures { result ≡ choose (is_inside buffer.now (entry_at buffer.now place)) (Ok (entry_at buffer.now place)) (Err Outside) }
{
    let part = entry_at(buffer, place);
    if part_fits(buffer.len(), part.start, part.len) {
        Ok(part)
    } else {
        Err(Refusal::Outside)
    }
}

// Whether a table of `count` entries of 8 bytes from `place` ends within `n`.
fn table_fits(n: usize, place: usize, count: usize) -> bool
    ensures { result ≡ leb (place + 8 * count) n }
{
    if n < place {
        false
    } else {
        count <= (n - place) / 8
    }
}

// Whether the block and both of its tables stand inside the buffer.
pub fn is_inside(buffer: &[u8], block: WireBlock) -> bool
    ensures { result ≡ is_record_inside buffer.now block }
{
    let n = buffer.len();
    if n < block.block {
        return false;
    }
    if !table_fits(n, block.stringtable, block.strings) {
        return false;
    }
    table_fits(n, block.grouptable, block.groups)
}

// The string of a number, by the record's string count and table place alone: none where the number is not below the count or its 8 table
// bytes pass the buffer, and 14 where the range that they name does. On the buffer and the record that a scan left it is the block's own
// string of that number, none at the count and behind it.
pub fn get(buffer: &[u8], block: WireBlock, index: usize) -> Result<Option<Part>, Refusal>
    ensures answer { result ≡ get_at buffer.now block index }
    ensures scanned { (b : List ℕ) (n : ℕ) → Scanned-as buffer.now block b n → result ≡ string_of (take n b) index }
{
    let n = buffer.len();
    let table = block.stringtable;
    if block.strings <= index {
        return Ok(None);
    }
    if n < 8 {
        return Ok(None);
    }
    if !table_fits(n - 8, table, index) {
        return Ok(None);
    }
    let part = named(buffer, table + 8 * index)?;
    Ok(Some(part))
}

// The group of a number: 14 where the block or a table passes the buffer, the number is not below the count, or the range that its entry
// names passes the buffer. On the buffer and the record that a scan left it is the block's own group of that number, 14 at the count and
// behind it.
pub fn group(buffer: &[u8], block: WireBlock, index: usize) -> Result<Part, Refusal>
    ensures answer { result ≡ group_at buffer.now block index }
    ensures scanned { (b : List ℕ) (n : ℕ) → Scanned-as buffer.now block b n → result ≡ group_of (take n b) index }
{
    let table = block.grouptable;
    if !is_inside(buffer, block) {
        return Err(Refusal::Outside);
    }
    if block.groups <= index {
        return Err(Refusal::Outside);
    }
    named(buffer, table + 8 * index)
}
