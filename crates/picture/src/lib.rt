//! How a diagram reads: as a picture in the DOT language, and a layer of it as a table.
#![tactic(auto)]

pub mod drawing;
mod groups;
pub mod table;
mod words;
