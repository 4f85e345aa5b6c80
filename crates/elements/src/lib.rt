// elements.rs and dense.rs of the Rust, their elements: what a walk hands out, and the steps over an element's tags, references and members.
// A step takes its state by value over lent bytes and a record, and hands back an item with the next state, that it has ended, or a refusal
// of document 01's table; behind the last two the state is the ended one.
#![tactic(auto)]

pub mod element;
pub mod members;
pub mod positions;
pub mod references;
mod steps;
pub mod tags;
