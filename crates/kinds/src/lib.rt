// dense.rs and block.rs of the Rust, their steps over the elements of one kind in a group: dense nodes, plain and with metadata, and nodes,
// ways and relations, each viewed when it is handed out. A step takes its place by value over a lent buffer, and hands out the next element
// with the place behind it, the end, or a refusal of document 01's table. It asks nothing of its place: one that is outside is 14.
#![tactic(auto)]

pub mod dense_nodes;
pub mod messages;
pub mod state;
