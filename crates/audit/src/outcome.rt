//! How a round's run ended.
use crate::counts::{Counts, note};
use crate::fault::Fault;
use std::fmt;

#[derive(Drop)]
pub(crate) struct Outcome<V> {
    pub(crate) allowed: usize,
    /// of the allowed orders, those whose cost is above no ceiling
    pub(crate) wanted: usize,
    /// calls that were refused
    pub(crate) refused: usize,
    pub(crate) bound: Option<V>,
    pub(crate) settled: bool,
    pub(crate) fault: Option<Fault>,
}

impl<V: Copy> Outcome<V> {
    /// Counts the round.
    pub(crate) fn note(&self, counts: &mut Counts) {
        counts.allowed = counts.allowed.saturating_add(self.allowed);
        note(&mut counts.rounds, true);
        note(&mut counts.none, self.allowed == 0);
        note(&mut counts.one, self.allowed == 1);
        note(&mut counts.many, self.allowed > 1);
        note(
            &mut counts.between,
            0 < self.wanted && self.wanted < self.allowed,
        );
        note(&mut counts.settled, self.settled);
        note(&mut counts.telling, self.settled && self.wanted > 1);
        note(&mut counts.faults, self.fault.is_some());
    }
}

/// As the end of its line is printed.
impl<V> fmt::Display for Outcome<V> {
    fn fmt<W: fmt::Write>(&self, f: &mut fmt::Formatter<W>) -> fmt::Result {
        let settled = if self.settled { "yes" } else { "no" };
        match self.fault {
            Some(fault) => write!(f, "settled\t{settled}\t{fault}"),
            None => write!(f, "settled\t{settled}\tok"),
        }
    }
}
