// The record of a scanned block, by value: WireBlockMeta of the Rust. It holds no bytes: each call lends the buffer anew beside it, as a state
// between two calls through C can hold none.

#[derive(Clone, Copy)]
pub struct WireBlock {
    // The block's length in bytes.
    pub block: usize,
    // How many strings there are, and where their table stands.
    pub strings: usize,
    pub stringtable: usize,
    // The same of the groups.
    pub groups: usize,
    pub grouptable: usize,
    pub granularity: i32,
    pub dategranularity: i32,
    pub latoffset: i64,
    pub lonoffset: i64,
}
