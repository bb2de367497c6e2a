// The writer of plan files. What is proved of a plan on both ways, written and read, stands in proofs/.
#![tactic(auto)]

mod words;
pub mod writing;
