// Where a walk stands among the elements of one kind in a group: dense nodes by their columns, messages by their place.
use columns::zip::RowColumns;
use protobuf::column::Column;

// A group, by its number and the range that the table names for it: two numbers and no Part, since a range is always there.
#[derive(Clone, Copy)]
pub struct GroupRangeAt {
    pub group: usize,
    pub start: usize,
    pub len: usize,
}

// The columns of dense nodes, before the next one: the three that are summed, and keys_vals at its pairs. What changes from node to node is
// apart from what does not, so that a step moves no more than it must.
#[derive(Clone, Copy)]
pub struct DenseColumns {
    pub rows: RowColumns,
    pub keyvals: Column,
}

#[derive(Clone, Copy)]
pub enum Loose {
    Nodes,
    Ways,
    Relations,
}

// Among a group's messages of one kind, at a place in the group; `full` where the walk shows metadata, the one thing that two walks differ in.
#[derive(Clone, Copy)]
pub struct Messages {
    pub full: bool,
    pub of: GroupRangeAt,
    pub kind: Loose,
    pub at: usize,
}
