//! What is said of doors that are named as an order of a round: when each finishes, whether the order is
//! allowed, and what it costs; and how that reads.
#![tactic(auto)]

pub mod named;
pub mod report;
pub mod shown;
