//! Parting and joining nodes in the lent list of records.
#![tactic(auto)]

pub mod agreeing;
mod agreement;
mod by_first;
mod check;
mod counting;
mod dividing;
pub mod joining;
mod listing;
mod moving;
pub mod parting;
mod source;
mod uniting;
