// The public calls on the words of a box: admit, offer, step. Each tests the state, and then makes the call on `Sound` words.
#![tactic(auto)]

pub mod admitting;
pub mod offering;
pub mod sound;
pub mod stepping;
