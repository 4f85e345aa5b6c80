// Protocol Buffers' messages, from its encoding document: payloads by their wire type, skipped groups, and fields one after the other. It reads
// lent bytes at a place, and answers what stands there with the place behind it, or a refusal of document 01's table.
#![tactic(auto)]

pub mod field;
mod open;
pub mod payload;
