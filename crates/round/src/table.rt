//! A round, lawful by its type.
ghost use Rattle.std.specs.Prelude.{◌≡◌, ℕ, ◌≤◌, pos, negsuc, ◌≤ℤ◌, slice_index};
ghost use Rattle.round.specs.Tables.{at, minutes_between};

use crate::door::Door;
use doors::DoorSet;

/// The tables go by number, with the yard at 0: a door's record, the minutes `drives[i][j]` from i to door j, the set `ahead[j]` of
/// the doors that have to come ahead of door j, and the number `keepers[j]` of its keeper, 0 where it has none. In a round that is
/// read, what stands past n, or at the yard, is blank.
#[derive(Clone, Copy, Debug, PartialEq, Eq)]
pub struct Round {
    pub n: usize,
    /// the key boxes in the van at the start, and the most that it holds
    pub load: u16,
    pub cap: u16,
    /// work starts only at whole multiples of so many minutes
    pub grid: u16,
    pub doors: [Door; 17],
    pub drives: [[u16; 17]; 17],
    pub ahead: [DoorSet; 17],
    pub keepers: [u16; 17],
    ghost one: { 1 ≤ n },
    ghost most: { n ≤ 16 },
    ghost within: { load ≤ cap },
    ghost small: { cap ≤ 999 },
    ghost grid_one: { 1 ≤ grid },
    ghost grid_most: { grid ≤ 60 },
    ghost opens: { (j : ℕ) → (at doors j).opens ≤ 9999 },
    ghost closes: { (j : ℕ) → (at doors j).closes ≤ 9999 },
    ghost due: { (j : ℕ) → (at doors j).due ≤ 9999 },
    ghost some: { (j : ℕ) → 1 ≤ j → j ≤ n → 1 ≤ (at doors j).work },
    ghost work: { (j : ℕ) → (at doors j).work ≤ 999 },
    ghost low: { (j : ℕ) → negsuc 98 ≤ℤ (at doors j).change },
    ghost high: { (j : ℕ) → (at doors j).change ≤ℤ pos 99 },
    ghost legs: { (i j : ℕ) → minutes_between drives i j ≤ 999 },
    ghost own: { (j : ℕ) → minutes_between drives j j ≡ 0 },
    ghost keeper_most: { (j : ℕ) → slice_index keepers j ≤ 99 },
    ghost keeper_yard: { slice_index keepers 0 ≡ 0 },
}
