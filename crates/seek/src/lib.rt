//! What is found in a diagram's records: the nodes of a layer; whether doors are read along a path; whether a path has one door at
//! an earlier place than another, worked out layer by layer from the end.
#![tactic(auto)]

pub mod holds;
pub mod layer;
pub mod must;
mod onward;
mod row;
mod seen;
mod walk;
