//! What every program does with its words, a file or standard input, and standard output. Each gives the status that it ends
//! with. What is wrong with the words, with an order, or with a file that cannot be read is told on standard error.
#![tactic(auto)]

pub mod input;
pub mod output;
pub mod usage;
