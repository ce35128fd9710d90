//! The program `view`: what it prints of a text, and how it ends.
#![tactic(auto)]

pub mod reply;
pub mod view;
