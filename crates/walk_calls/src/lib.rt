// The walk of a block, called through C: its state stands in a slot that the caller lends. A call hands out one element, or as many as the
// answer's slice has room for, and leaves in the slot the state behind them.
#![tactic(auto)]

mod messages;
mod nodes;
pub mod steps;
