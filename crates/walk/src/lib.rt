// block.rs and dense.rs of the Rust, their walks: a block's elements one after the other, group by group: dense nodes, nodes, ways, relations.
// It reads a lent buffer by a record and a state, and hands out elements with the state behind each, the end, or a refusal of document 01's
// table.
#![tactic(auto)]

pub mod block_elements;
pub mod inside;
mod moves;
pub mod state;
mod steps;
mod turns;
