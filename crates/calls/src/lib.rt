// Calls of a walk through C: its state stands in a slot that the caller lends. A call hands out one item, or as many as the answer's slice
// has room for, and leaves in the slot the state behind them. The calls over references.
#![tactic(auto)]

pub mod ended;
pub mod items;
pub mod next;
pub mod references;
pub mod room;
pub mod run;
pub mod slot;
