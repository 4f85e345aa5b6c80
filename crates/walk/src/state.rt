// Where a walk stands: BlockElementsIter of the Rust, by value. Every state of a walk is built here.
use columns::info_rows::InfoColumns;
use kinds::state::{DenseColumns, GroupRangeAt, Messages};

// Before a group's number, which is the group count at the end; `full` where the walk shows metadata.
#[derive(Clone, Copy)]
pub struct Between {
    pub full: bool,
    pub group: usize,
}

// The range of a message in the buffer: no Part, since it is always there, and so it is read back from a slot.
#[derive(Clone, Copy)]
pub struct Range {
    pub start: usize,
    pub len: usize,
}

// Among a group's dense nodes, with the range of their message.
#[derive(Clone, Copy)]
pub struct DenseNodeIter {
    pub of: GroupRangeAt,
    pub message: Range,
    pub columns: DenseColumns,
}

// The same in a full walk, with the columns of DenseInfo.
#[derive(Clone, Copy)]
pub struct FullDenseNodeIter {
    pub nodes: DenseNodeIter,
    pub infos: InfoColumns,
}

// The states of one walk, each with what it alone needs.
#[derive(Clone, Copy)]
pub enum BlockElementsIter {
    Ended,
    Between(Between),
    DenseNodes(DenseNodeIter),
    FullDenseNodes(FullDenseNodeIter),
    Messages(Messages),
}
