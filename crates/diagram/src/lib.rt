//! The order diagram over a lent list of node records.
#![tactic(auto)]

pub mod diagram;
mod lay;
pub mod lent;
pub mod reading;
pub mod room;
