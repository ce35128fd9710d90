//! Lists the orders of a small round one after another, straight from what allowed and cost mean; no
//! diagram has a part in it.
#![tactic(auto)]

pub mod list;
pub mod next;
