//! The minutes driven, from the yard to the last door.
ghost use Rattle.std.specs.Prelude.{◌*◌, ◌≤◌};
ghost use Rattle.tallies.specs.Driving.{driving_sense};
ghost use Rattle.std.proofs.Common.{rules};

use crate::capped::capped_sum;
use crate::tally::Tally;

/// The tally of drive minutes, from the yard to the last door.
#[derive(Clone, Copy, Debug, PartialEq, Eq)]
pub struct Driving;

impl Tally for Driving {
    type Value = u32;

    ghost serves = { λ t n. Unit {0} };

    ghost sense = { λ t. driving_sense };

    ghost allows = { λ t k v. v ≤ 999 * k };

    ghost lawful = { Prim.search rules };

    fn start(&self) -> u32 {
        0
    }

    fn step(&self, v: u32, _j: usize, leg: u32, _finish: u32) -> u32 {
        capped_sum(v, leg)
    }

    fn not_above(&self, a: u32, b: u32) -> bool {
        a <= b
    }

    fn lesser(&self, a: u32, b: u32) -> u32 {
        if a <= b { a } else { b }
    }
}
