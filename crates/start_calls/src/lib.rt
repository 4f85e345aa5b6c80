// Where the calls over an element's references, tags and members start: by the element's bytes as they passed through C.
#![tactic(auto)]

pub mod kind;
pub mod starts;
