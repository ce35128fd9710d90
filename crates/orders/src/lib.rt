//! Part orders of a round's doors: when each door finishes, what they cost, and whether they are allowed.
#![tactic(auto)]

pub mod order;
pub mod van;
pub mod verdict;
