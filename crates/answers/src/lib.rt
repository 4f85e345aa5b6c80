// What passes through C: records, answers and states as numbers of 8 little-endian bytes each, one behind the other, in slices that the
// caller lends (include/nuorpyts.h). A function here gives the numbers of a value, puts numbers into a slice, reads a value back, or
// steps on the state in a slot.
#![tactic(auto)]

pub mod codes;
pub mod group;
pub mod layout;
pub mod messages;
pub mod record;
pub mod step;
pub mod words;
