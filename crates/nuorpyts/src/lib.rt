// The functions that C calls. Numbers pass as themselves and byte slices as a pointer and a length; records, answers and states stand in
// slices that the caller lends, as the crate `answers` lays them out (include/nuorpyts.h). Each answers its code as a number, since that is the
// interface; within the library what stops a call is an enum.
#![tactic(auto, unfolding(fields::specs::Outcome::onward))]

pub mod blocks;
pub mod check;
pub mod group;
pub mod listings;
pub mod messages;
pub mod positions;
pub mod sub_walks;
pub mod walks;
