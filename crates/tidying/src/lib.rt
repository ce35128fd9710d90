//! Tidying the lent list of records: nodes on no path go. Counting arcs.
#![tactic(auto)]

pub mod count;
pub mod tidy;
