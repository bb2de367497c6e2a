// The box in lent 32-bit words: the places, and what is read and written there word by word.
#![tactic(auto)]

pub mod numbers;
pub mod packets;
pub mod places;
