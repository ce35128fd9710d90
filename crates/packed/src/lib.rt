//! A round's sheet in bytes: a text and a list of packed calls in, packed words out. The static library `capi` offers it to C.
#![tactic(auto)]

mod call;
mod head;
pub mod often;
pub mod refusal;
pub mod sheet;
mod words;
mod work;
