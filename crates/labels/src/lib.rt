//! Works out all labels anew: one pass down over the sources and their doors, and one pass up.
#![tactic(auto)]

pub mod blank;
mod down;
pub mod leg;
pub mod outs;
pub mod relabel;
pub mod room;
mod up;
