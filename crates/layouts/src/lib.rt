// How elements pass through C: the numbers of each, in their order. `answers` puts them into a slice.
#![tactic(auto)]

pub mod element;
