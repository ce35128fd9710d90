//! A tally: the latest finish so far.
ghost use Rattle.std.specs.Prelude.{◌≤◌};
ghost use Rattle.round.specs.Clock.{latest_finish};
ghost use Rattle.cases.specs.Latest.{latest_sense};
ghost use Rattle.std.proofs.Common.{rules};

use tallies::tally::Tally;

/// The tally of the latest finish so far.
#[derive(Clone, Copy)]
pub struct LatestFinish;

impl Tally for LatestFinish {
    type Value = u32;

    ghost serves = { λ t n. Unit {0} };

    ghost sense = { λ t. latest_sense };

    ghost allows = { λ t k v. v ≤ latest_finish 16 };

    ghost lawful = { Prim.search rules };

    fn start(&self) -> u32 {
        0
    }

    fn step(&self, v: u32, _j: usize, _leg: u32, finish: u32) -> u32 {
        v.max(finish)
    }

    fn not_above(&self, a: u32, b: u32) -> bool {
        a <= b
    }

    fn lesser(&self, a: u32, b: u32) -> u32 {
        a.min(b)
    }
}
