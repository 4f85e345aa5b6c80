// dense.rs and elements.rs of the Rust, their readers: columns of a message read value by value, alone, summed, counted, and several of them
// in step. A reader's state is by value, over the bytes that it is lent with; a step tells a value with the next state, that it has ended, or a
// refusal of document 01's table. `inside` tests a whole state before any of its columns is read.
#![tactic(auto)]

pub mod counts;
pub mod info_rows;
pub mod inside;
pub mod keys_vals;
pub mod reader;
pub mod sums;
pub mod told;
pub mod zip;
