//! Pairs of doors, of which the first has to come ahead of the second.
use round::table::Round;

pub mod rule;

/// The pairs of a round: its table has for each door the set of the doors that have to come ahead of it.
#[derive(Clone, Copy, Debug, PartialEq, Eq)]
pub struct Pairs<'a> {
    pub round: &'a Round,
}
