// What the programs that replay a list of answers share: the list as it is read, the bytes that digits spell, and the words of an answer.
#![tactic(auto)]

pub mod list;
pub mod tables;
pub mod words;
