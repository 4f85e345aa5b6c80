// wire.rs of the Rust, its blocks: the scan, which reads a block's own fields and writes the tables behind it. It answers a record, or a refusal
// of document 01's table. Strings and groups by their number are in `lookup`.
#![tactic(auto)]

pub mod primitive_block;
pub mod record;
pub mod scan;
pub mod tables;
