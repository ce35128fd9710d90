//! The round sheet as a value: what the refined diagram of a round says of the round's allowed orders.
#![tactic(auto)]

mod lines;
pub mod sheet;
