// Plan files of document 01: the reader, the parts of a plan, and the arrivals of a slot. `plan_writer` writes them.
#![tactic(auto)]

pub mod reading;
pub mod tables;
pub mod words;
