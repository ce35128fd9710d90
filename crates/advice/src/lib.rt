//! How a fault of a text reads to who wrote the text: where it is, what is wrong, what is expected there,
//! what is found there, and what to write.
#![tactic(auto)]

pub mod advice;
mod expected;
mod flaws;
mod forms;
mod found;
mod items;
mod write;
mod wrong;
