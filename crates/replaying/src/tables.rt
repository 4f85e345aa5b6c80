// A scanned block with its tables, which its scan wrote behind it.
ghost use Rattle.std.specs.Prelude.{◌≡◌, ◌≤◌, ◌<◌, ◌+◌, ◌*◌, length, take, []};

use wire::record::WireBlock;

// The block and its tables: the buffer up to the end of its group table, no bytes where that is not in it.
pub fn block_and_tables(buffer: &[u8], block: WireBlock) -> &[u8]
    ensures whole { block.grouptable + 8 * block.groups ≤ length buffer.now → result.now ≡ take (block.grouptable + 8 * block.groups) buffer.now }
    ensures cut { length buffer.now < block.grouptable + 8 * block.groups → result.now ≡ [] }
{
    let end = block
        .grouptable
        .saturating_add(block.groups.saturating_mul(8));
    buffer.get(..end).unwrap_or(&[])
}
