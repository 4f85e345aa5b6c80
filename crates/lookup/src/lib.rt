// wire.rs of the Rust, its lookups: strings and groups of a scanned block by their number, through the tables behind it. It reads lent bytes
// and a record, and answers a part, none, or a refusal of document 01's table.
#![tactic(auto)]

pub mod by_number;
