//! `Pairs` is a side rule: a state is a set of doors, and stands for the part orders within it.
ghost use Rattle.std.specs.Prelude.{◌≡◌, ℕ};
ghost use Rattle.doors.specs.Orders.{StandsIn};
ghost use Rattle.doors.specs.Sets.{Has};
ghost use Rattle.rules.specs.Pairs.{IsOrdered, pairs_sense};
ghost use Rattle.rules.specs.PairsLaws.{pairs_lawful, pairs_lawful_for};

use super::Pairs;
use crate::rule::Rule;
use doors::{DoorSet, with};
use round::table::Round;

impl<'a> Pairs<'a> {
    /// The pairs of a round.
    pub fn of(round: &'a Round) -> Pairs<'a>
        ensures { result.round ≡ round.entry }
    {
        Pairs { round }
    }
}

impl<'a> Rule for Pairs<'a> {
    type State = DoorSet;

    ghost serves = { λ r n. r.round.now.n ≡ n };

    ghost sense = { λ r. pairs_sense r.round.now.n r.round.now.ahead };

    ghost keeps = { λ r w. IsOrdered r.round.now.ahead w };

    ghost stands = { λ r s w. ((j : ℕ) → StandsIn j w → Has s j) };

    ghost lawful = { λ r n e. pairs_lawful_for r.round.now.n r.round.now.ahead n e };

    ghost reflexive = { λ r s. (pairs_lawful r.round.now.n r.round.now.ahead).same_self s };

    fn start(&self) -> DoorSet {
        0
    }

    fn step(&self, s: DoorSet, j: usize) -> DoorSet {
        if self.round.has_door(j) {
            with(s, j)
        } else {
            s
        }
    }

    fn cover(&self, s: DoorSet, t: DoorSet) -> DoorSet {
        s | t
    }

    fn bars(&self, s: DoorSet, j: usize) -> bool {
        if !self.round.has_door(j) {
            return false;
        }
        let ahead = self.round.ahead[j];
        ahead & s != ahead
    }

    fn same(&self, s: DoorSet, t: DoorSet) -> bool {
        s == t
    }
}
