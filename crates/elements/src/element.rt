// What a walk hands out: one element, by its kind.
use protobuf::column::Column;
use views::node::WireNode;
use views::relation::WireRelation;
use views::way::WireWay;

// The metadata of a dense node, in step with the nodes; `user` is user_sid.
#[derive(Clone, Copy)]
pub struct DenseNodeInfo {
    pub version: i32,
    pub timestamp: i64,
    pub changeset: i64,
    pub uid: i32,
    pub user: i32,
    pub visible: bool,
}

// What a walk shows of a dense node's metadata: three cases with names of their own, which C is told too.
#[derive(Clone, Copy)]
pub enum NodeInfo {
    // A plain walk reads no metadata.
    Unread,
    // A full walk has found none for this node.
    Missing,
    Row(DenseNodeInfo),
}

// A dense node: its running sums, and a reader of keys_vals that stands before its pairs.
#[derive(Clone, Copy)]
pub struct DenseNode {
    pub id: i64,
    pub lat: i64,
    pub lon: i64,
    pub tags: Column,
    pub info: NodeInfo,
}

// The others are their messages as viewed, with the Info's part in a full walk and none in a plain one.
#[derive(Clone, Copy)]
pub enum Element {
    DenseNode(DenseNode),
    Node(WireNode),
    Way(WireWay),
    Relation(WireRelation),
}
