//! The program `order`: what it prints of a text and of an order of its round's doors, and how it ends.
#![tactic(auto)]

pub mod order;
pub mod reply;
