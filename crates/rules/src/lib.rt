//! Side rules: what a rule is; pairs, load, keepers, and both of any two; and those of a round together.
#![tactic(auto)]

pub mod both;
pub mod keepers;
pub mod laws;
pub mod load;
pub mod pairs;
pub mod rule;
pub mod side;
pub mod state;
