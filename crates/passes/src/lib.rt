// The passes of the check over one message: its columns, its Info, a dense message's rows, each read whole. They read the bytes of one message
// and say that it passed, or the first condition of document 01's table that it meets.
#![tactic(auto, unfolding(fields::specs::Outcome::onward, block::specs::Check::all))]

mod columns_check;
pub mod dense_check;
pub mod element_check;
