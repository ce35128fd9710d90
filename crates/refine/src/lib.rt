//! Refining a diagram layer by layer, and whether it is settled.
#![tactic(auto)]

pub mod refine;
pub mod settled;
