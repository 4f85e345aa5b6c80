// wire.rs and block.rs of the Rust, their groups: a group's kind by its first byte, its dense message, and its messages of one field one
// after the other. It reads lent bytes and answers a kind, parts and states, or a refusal of document 01's table.
#![tactic(auto)]

pub mod classify;
pub mod group;
