// What the views of wire.rs share: a part of the bytes and whether it fits, the tags of osmformat.proto's fields, and what one occurrence of a
// field does to its slot (the last number stands, a second column that is not empty is 9, a second Info that is not empty is 10); and the step
// of an iteration.
#![tactic(auto)]

pub mod part;
pub mod schema;
pub mod slot;
pub mod step;
