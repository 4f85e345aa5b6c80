// Calls through C over an element's tags: as numbers, and with their texts.
#![tactic(auto)]

pub mod raw_tags;
pub mod tags;
