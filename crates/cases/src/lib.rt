//! What no clause says, held against worked examples: a crate of tests alone, over the libraries that they call.
#![tactic(auto)]

#[cfg(test)]
mod lent_lists;
#[cfg(test)]
mod listed_orders;
#[cfg(test)]
mod outside;
#[cfg(test)]
mod reading;
#[cfg(test)]
mod reading_forms;
#[cfg(test)]
mod reports;
#[cfg(test)]
mod rounds;
#[cfg(test)]
mod shown_sheets;
