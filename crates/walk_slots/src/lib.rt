// The walk of a block through C: its state stands in a slot that the caller lends.
#![tactic(auto)]

pub mod slot;
