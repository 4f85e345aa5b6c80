// Whether two scanned blocks list the same: their plain walks in step, element by element, each with its tags, references and members. It
// refuses what the check refuses of either block, and 14 of either before any other number.
#![tactic(auto)]

mod items;
pub mod listing;
mod members;
mod records;
mod references;
mod streams;
mod tags;
mod texts;
mod walks;
