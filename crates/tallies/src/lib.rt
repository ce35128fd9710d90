//! Tallies: what a tally is, and driving and late doors.
#![tactic(auto)]

mod capped;
pub mod driving;
pub mod late;
pub mod laws;
pub mod tally;
