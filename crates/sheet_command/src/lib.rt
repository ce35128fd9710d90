//! The program `sheet`: what it prints of a text, as a value that is proved, and what it does with its words, a file or standard
//! input, and standard output.
#![tactic(auto)]

pub mod reply;
pub mod sheet;
