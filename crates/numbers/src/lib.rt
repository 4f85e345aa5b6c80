// Numbers: what a varint's bits mean in a field of a signed type, sums and products that wrap, and little-endian numbers of 4 and 8 bytes.
// Nothing is refused here: each function is total. The definitions that the contracts cite are in specs/, over any width.
#![tactic(auto)]

pub mod little;
pub mod signed;
