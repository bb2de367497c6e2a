// The store of waiting packets in words: the lengths of the queues and their packets.
#![tactic(auto)]

pub mod lengths;
pub mod queues;
