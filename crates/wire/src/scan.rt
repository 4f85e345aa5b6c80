// The scan of a block: its own fields and its chosen string table are read whole, and the tables are written behind it.
ghost use Rattle.std.specs.Prelude.{◌≡◌, ◌+◌, ◌*◌, ◌^◌, ◌≤◌, ◌<◌, leb, length, take, Err};
ghost use Rattle.protobuf.specs.declared.refusal.Refusal.TheVariants.{NoRoom};
ghost use Rattle.fields.specs.Outcome.{each};
ghost use Rattle.fields.specs.View.{view};
ghost use Rattle.fields.specs.Schema.{string_table};
ghost use Rattle.wire.specs.Scan.{scanned, string_count, after_scan, record_by, tables_stage, strings_stage, FieldsRead, StringsRead, meta};

use crate::primitive_block::{BlockFields, scan_block_fields};
use crate::record::WireBlock;
use crate::tables::write_entries;
use fields::schema::primitive_block::GROUP;
use fields::schema::string_table::STRINGS;
use message::field::next_field;
use numbers::signed::Signed;
use protobuf::refusal::Refusal;

// The longest block that is scanned.
pub const LIMIT: usize = 33554432;

// How many strings a string table has.
fn count_strings(s: &[u8]) -> Result<usize, Refusal>
    ensures { result ≡ each string_count (view string_table s.now) }
{
    let mut n = 0;
    let mut at = 0;
    while let Some((field, next)) = next_field(s, at)? {
        if field.tag == STRINGS {
            n += 1;
        }
        at = next;
    }
    Ok(n)
}

// Whether `n` bytes have room behind a block for both tables.
fn has_room(n: usize, block: usize, strings: usize, groups: usize) -> bool
    requires { block ≤ n }
    ensures { result ≡ leb (block + 8 * (strings + groups)) n }
{
    let room = (n - block) / 8;
    if room < strings {
        false
    } else {
        groups <= room - strings
    }
}

// The record of a block, from what its fields and its string table gave.
fn record_of(block: usize, top: BlockFields, strings: usize) -> WireBlock
    requires { block + 8 * strings < 2 ^ 64 }
    ensures { result ≡ record_by block top strings }
{
    WireBlock {
        block,
        strings,
        stringtable: block,
        groups: top.groups,
        grouptable: block + 8 * strings,
        granularity: i32::of_bits(top.granularity),
        dategranularity: i32::of_bits(top.dategranularity),
        latoffset: i64::of_bits(top.latoffset),
        lonoffset: i64::of_bits(top.lonoffset),
    }
}

// The third stage: 13 where there is no room for the tables, else they are written.
fn inline_tables(
    buffer: &mut [u8],
    block: usize,
    top: BlockFields,
    strings: usize,
) -> Result<WireBlock, Refusal>
    requires { StringsRead buffer.old block top strings }
    ensures answer { result ≡ each meta (tables_stage (length buffer.old) block (take block buffer.old) top strings) }
    ensures after { buffer.new ≡ after_scan buffer.old block (tables_stage (length buffer.old) block (take block buffer.old) top strings) }
{
    let groups = top.groups;
    if has_room(buffer.len(), block, strings, groups) {
        let part = top.strings;
        let place = block + 8 * strings;
        write_entries(buffer, part.start, part.len, STRINGS, block);
        write_entries(buffer, 0, block, GROUP, place);
        Ok(record_of(block, top, strings))
    } else {
        Err(Refusal::NoRoom)
    }
}

// The second stage: the chosen string table is read whole.
fn scan_strings(buffer: &mut [u8], block: usize, top: BlockFields) -> Result<WireBlock, Refusal>
    requires { FieldsRead buffer.old block top }
    ensures answer { result ≡ each meta (strings_stage (length buffer.old) block (take block buffer.old) top) }
    ensures after { buffer.new ≡ after_scan buffer.old block (strings_stage (length buffer.old) block (take block buffer.old) top) }
{
    let part = top.strings;
    let start = part.start;
    let end = start + part.len;
    let strings = count_strings(&buffer[start..end])?;
    inline_tables(buffer, block, top, strings)
}

// The block in the first `block` bytes: 14 where the length passes the buffer, 1 where it is above the limit; then, in three stages, the
// refusals of all its fields (8 among them), those of its last string table, and 13 where the tables have no room behind it. The tables are
// written right behind the block, and no other byte changes; a refusal writes nothing. A buffer of five times the block's bytes is never too
// short.
pub fn scan(buffer: &mut [u8], block: usize) -> Result<WireBlock, Refusal>
    ensures answer { result ≡ each meta (scanned buffer.old block) }
    ensures after { buffer.new ≡ after_scan buffer.old block (scanned buffer.old block) }
    ensures room { 5 * block ≤ length buffer.old → result ≡ Err NoRoom → ⊥ }
{
    if buffer.len() < block {
        return Err(Refusal::Outside);
    }
    if LIMIT < block {
        return Err(Refusal::BlockTooLong);
    }
    let top = scan_block_fields(&buffer[..block])?;
    scan_strings(buffer, block, top)
}
