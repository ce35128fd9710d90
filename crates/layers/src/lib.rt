//! The records of a diagram, and what is claimed of it.
#![tactic(auto)]

pub mod call;
pub mod claim;
pub mod node;
pub mod refined;
pub mod refusal;
pub mod setting;
