//! The side rules of a round together: its pairs, its load and its keepers.
ghost use Rattle.std.specs.Prelude.{◌≡◌};

use crate::both::Both;
use crate::keepers::Keepers;
use crate::load::{Interval, Load};
use crate::pairs::Pairs;
use crate::rule::Rule;
use doors::DoorSet;
use round::table::Round;

/// Pairs, load and keepers, paired up one after the other.
pub type SideRule<'a> = Both<Both<Pairs<'a>, Load<'a>>, Keepers<'a>>;

/// A state of them: the doors that have been, the least and the greatest load, and the possible last doors.
pub type SideState = ((DoorSet, Interval), DoorSet);

impl<'a> SideRule<'a> {
    /// The side rules of a round, which serve it.
    pub fn of(round: &'a Round) -> SideRule<'a>
        ensures pairs { result.first.first.round ≡ round.entry }
        ensures load { result.first.second.round ≡ round.entry }
        ensures keepers { result.second.round ≡ round.entry }
        ensures serves { ⟦<SideRule<'a> as Rule>⟧.serves result round.now.n }
    {
        Both {
            first: Both {
                first: Pairs::of(round),
                second: Load::of(round),
            },
            second: Keepers::of(round),
        }
    }
}
