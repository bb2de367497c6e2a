// One whole run of a plan, as text. Document 01, "The program and one whole run".
#![tactic(auto)]

mod admissions;
mod offers;
mod places;
pub mod rooms;
pub mod running;
mod slots;
