//! The load of the van: after every door it holds 0 to `cap` key boxes.
use round::table::Round;

pub mod rule;

/// The load of a round, of whose doors only their change counts.
#[derive(Clone, Copy, Debug, PartialEq, Eq)]
pub struct Load<'a> {
    pub round: &'a Round,
}

/// The least and the greatest load that the van may have.
#[derive(Clone, Copy, Debug, PartialEq, Eq)]
pub struct Interval {
    pub low: i32,
    pub high: i32,
}
