// The check of a whole block, by named passes over its groups and their messages: may it be walked. It is added to what the Rust has; what a
// block must meet is defined in `block`.
#![tactic(auto)]

pub mod check;
mod group_check;
