// The test of soundness, on any words. What a test knows of the words, their number or `Tables`, stays its clause: each goes by what the tests
// before it found, so a type for each stage would be used by one function or two.
#![tactic(auto)]

pub mod packets;
pub mod rows;
pub mod settings;
pub mod testing;
