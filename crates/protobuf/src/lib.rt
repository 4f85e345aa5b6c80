// Protocol Buffers' wire format, from its encoding document: varints, tags and columns. It reads lent bytes at a place, and answers what stands
// there with the place behind it, or a refusal of document 01's table. What a value means in a field of a signed type is in `numbers`;
// payloads, skipped groups and messages are in `message`. The definitions that the contracts cite are in specs/.
#![tactic(auto)]

pub mod column;
pub mod refusal;
pub mod tag;
pub mod varint;
