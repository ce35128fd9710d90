//! The doors that are late, and the minutes by which they are.
use round::table::Round;

pub mod tally;

/// Of the round's doors only their due minutes count.
#[derive(Clone, Copy, Debug, PartialEq, Eq)]
pub struct LateDoors<'a> {
    pub round: &'a Round,
}
