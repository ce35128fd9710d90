//! `LateDoors` is a tally: how many doors are late, and of as many, by how many minutes together.
ghost use Rattle.std.specs.Prelude.{◌≡◌, ◌*◌, ◌≤◌};
ghost use Rattle.round.specs.Clock.{latest_finish};
ghost use Rattle.tallies.specs.Late.{late_by, late_sense};
ghost use Rattle.std.proofs.Common.{rules, arith};

use super::LateDoors;
use crate::capped::capped_sum;
use crate::tally::Tally;
use round::table::Round;

impl<'a> LateDoors<'a> {
    /// The due minutes of a round.
    pub fn of(round: &'a Round) -> LateDoors<'a>
        ensures { result.round ≡ round.entry }
    {
        LateDoors { round }
    }

    /// By how many minutes door j is late, if its work ends at `finish`.
    fn minutes_late(&self, j: usize, finish: u32) -> u32
        ensures { result ≡ late_by self.now.round.now.n self.now.round.now.doors j finish }
    {
        if self.round.has_door(j) {
            finish.saturating_sub(u32::from(self.round.door(j).due))
        } else {
            0
        }
    }
}

impl<'a> Tally for LateDoors<'a> {
    type Value = (u32, u32);

    ghost serves = { λ t n. t.round.now.n ≡ n };

    ghost sense = { λ t. late_sense t.round.now.n t.round.now.doors };

    ghost allows = { λ t k v. (v.0 ≤ k) × (v.1 ≤ latest_finish 16 * k) };

    ghost lawful = { first_of (Prim.search rules, Prim.grind (arith, Self.row.coded.inj)) };

    fn start(&self) -> (u32, u32) {
        (0, 0)
    }

    fn step(&self, v: (u32, u32), j: usize, _leg: u32, finish: u32) -> (u32, u32) {
        let late = self.minutes_late(j, finish);
        if late > 0 {
            (capped_sum(v.0, 1), capped_sum(v.1, late))
        } else {
            v
        }
    }

    fn not_above(&self, a: (u32, u32), b: (u32, u32)) -> bool {
        a <= b
    }

    fn lesser(&self, a: (u32, u32), b: (u32, u32)) -> (u32, u32) {
        if a <= b { a } else { b }
    }
}
