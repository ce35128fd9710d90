//! The round of a day: its doors, drive minutes, load, pairs and keepers, and the clock.
#![tactic(auto)]

pub mod clock;
pub mod door;
pub mod table;
