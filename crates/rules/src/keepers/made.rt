//! The keepers of a round, with the sets of doors that share one.
ghost use Rattle.std.specs.Prelude.{◌≡◌, ℕ, ◌≤◌, slice_index};
ghost use Rattle.doors.specs.Sets.{has};
ghost use Rattle.rules.specs.Keepers.{share_as_others};

use super::Keepers;
use doors::{DoorSet, with};
use round::table::Round;

/// The other doors of j's keeper.
fn others_of(keepers: &[u16; 17], j: usize) -> DoorSet
    requires { j ≤ 16 }
    ensures { (i : ℕ) → has result i ≡ share_as_others keepers.now i j }
{
    let keeper = keepers[j];
    let mut set = 0;
    for i in 0..17 {
        if i != j && keeper != 0 && keepers[i] == keeper {
            set = with(set, i);
        }
    }
    set
}

/// The same for each door, by number.
fn all_others(keepers: &[u16; 17]) -> [DoorSet; 17]
    ensures { (i j : ℕ) → j ≤ 16
        → has (slice_index result j) i ≡ share_as_others keepers.now i j }
{
    let mut others = [0; 17];
    for j in 0..17 {
        others[j] = others_of(keepers, j);
    }
    others
}

impl<'a> Keepers<'a> {
    /// The keepers of a round.
    pub fn of(round: &'a Round) -> Keepers<'a>
        ensures { result.round ≡ round.entry }
    {
        Keepers {
            round,
            others: all_others(&round.keepers),
        }
    }
}
