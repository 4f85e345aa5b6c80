// Whether a walk's state is inside a buffer and a record: every range in it, and its group's number.
ghost use Rattle.std.specs.Prelude.{◌≡◌};
ghost use Rattle.walk.specs.State.{group_inside, dense_inside, state_inside};
ghost use Rattle.walk.specs.Moves.{among_full, among_messages};

use crate::state::{BlockElementsIter, DenseNodeIter, FullDenseNodeIter};
use columns::inside::{are_infos_inside, are_rows_inside, is_column_inside};
use fields::part::part_fits;
use kinds::state::{GroupRangeAt, Messages};
use wire::record::WireBlock;

// Whether the number is below the count, and the range in the buffer.
pub fn group_inside(buffer: &[u8], block: WireBlock, of: GroupRangeAt) -> bool
    ensures { result ≡ group_inside buffer.now block of }
{
    if block.groups <= of.group {
        return false;
    }
    part_fits(buffer.len(), of.start, of.len)
}

// Whether the group, the message and all four columns are inside.
pub fn dense_inside(buffer: &[u8], block: WireBlock, nodes: DenseNodeIter) -> bool
    ensures { result ≡ dense_inside buffer.now block nodes }
{
    if !group_inside(buffer, block, nodes.of) {
        return false;
    }
    if !part_fits(buffer.len(), nodes.message.start, nodes.message.len) {
        return false;
    }
    if !are_rows_inside(buffer, nodes.columns.rows) {
        return false;
    }
    is_column_inside(buffer, nodes.columns.keyvals)
}

// The same with the columns of DenseInfo.
fn full_inside(buffer: &[u8], block: WireBlock, full: FullDenseNodeIter) -> bool
    ensures { result ≡ state_inside buffer.now block (among_full full) }
{
    if !dense_inside(buffer, block, full.nodes) {
        return false;
    }
    are_infos_inside(buffer, full.infos)
}

// Whether the group is inside, and the place in the group.
fn messages_inside(buffer: &[u8], block: WireBlock, m: Messages) -> bool
    ensures { result ≡ state_inside buffer.now block (among_messages m) }
{
    if !group_inside(buffer, block, m.of) {
        return false;
    }
    m.at <= m.of.len
}

// Whether a state is inside: 14 before anything is read where it is not. Each arm binds what its case alone has.
pub(crate) fn state_inside(buffer: &[u8], block: WireBlock, state: BlockElementsIter) -> bool
    ensures { result ≡ state_inside buffer.now block state }
{
    match state {
        BlockElementsIter::Ended => true,
        BlockElementsIter::Between(b) => b.group <= block.groups,
        BlockElementsIter::DenseNodes(nodes) => dense_inside(buffer, block, nodes),
        BlockElementsIter::FullDenseNodes(full) => full_inside(buffer, block, full),
        BlockElementsIter::Messages(m) => messages_inside(buffer, block, m),
    }
}
