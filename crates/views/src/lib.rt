// wire.rs of the Rust, its messages: the six views, each one `match` over field and wire type, and the trait whose one loop serves them all. It
// reads lent bytes and answers numbers and parts, or a refusal of document 01's table.
#![tactic(auto)]

pub mod dense_info;
pub mod dense_nodes;
pub mod info;
pub mod node;
pub mod relation;
pub mod view;
pub mod way;
