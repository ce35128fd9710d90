//! The keepers of doors: none lets the van in twice running.
ghost use Rattle.std.specs.Prelude.{◌≡◌, ℕ, ◌≤◌, slice_index};
ghost use Rattle.doors.specs.Sets.{has};
ghost use Rattle.rules.specs.Keepers.{share_as_others};

use doors::DoorSet;
use round::table::Round;

mod made;
pub mod rule;

/// The keepers of a round: its table has for each door the number of its keeper, and 0 where it has none.
#[derive(Clone, Copy, Debug, PartialEq, Eq)]
pub struct Keepers<'a> {
    pub round: &'a Round,
    /// for each door the set of the other doors of its keeper
    others: [DoorSet; 17],
    ghost told: { (i j : ℕ) → j ≤ 16 →
        has (slice_index others j) i ≡ share_as_others round.now.keepers i j },
}
