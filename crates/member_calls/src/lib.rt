// Calls through C over a relation's members.
#![tactic(auto)]

pub mod members;
