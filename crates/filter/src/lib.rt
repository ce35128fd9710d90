//! Filtering the arcs of the lent list of records: sweep, cut and backsweep, and whether a sweep would take out nothing.
#![tactic(auto)]

pub mod backsweep;
pub mod cut;
pub mod quiet;
mod redo;
pub mod sweep;
mod take;
mod test;
