// The short way of a single call of the walk. A crate of its own, since its functions read many numbers and an edit costs a whole check.
#![tactic(auto)]

pub mod short;
