// The calls of a box, of a plan and of a whole run for C and Rust: a static library, which include/zeppilorn.h declares. Each exported function makes one
// proved call and, as C asks for it, hands back the answer's number as its result; the answer's other fields go into words that the caller lends.
#![tactic(auto)]

pub mod boxes;
pub mod plans;
pub mod runs;
