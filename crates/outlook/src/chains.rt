//! What follows from the pairs of a round.
ghost use Rattle.std.specs.Prelude.{◌↔◌, ◌⊎◌, ℕ, ◌<◌, ◌≤◌, slice_index};
ghost use Rattle.doors.specs.Sets.{Has};
ghost use Rattle.rules.specs.Pairs.{Pair};
ghost use Rattle.outlook.specs.Chains.{IsChained};

use doors::{DoorSet, contains};

/// The set, and all doors that a pair puts ahead of one of its doors.
fn widened(ahead: &[DoorSet; 17], set: DoorSet) -> DoorSet
    ensures larger { set ≤ result }
    ensures kept { (i : ℕ) → Has set i → Has result i }
    ensures pairs { (i k : ℕ) → Has set k → Pair ahead.now i k → Has result i }
    ensures only { (i : ℕ) → Has result i
        → Has set i ⊎ ((k : ℕ) × Has set k × Pair ahead.now i k) }
{
    let mut wider = set;
    for (k, more) in ahead.iter().enumerate() {
        if contains(set, k) {
            wider |= *more;
        }
    }
    wider
}

/// All doors that have to come ahead of door j.
fn all_ahead(ahead: &[DoorSet; 17], j: usize) -> DoorSet
    requires { j < 17 }
    ensures { (i : ℕ) → Has result i ↔ IsChained ahead.now i j }
{
    let mut set = ahead[j];
    loop {
        let wider = widened(ahead, set);
        if wider == set {
            return set;
        }
        set = wider;
    }
}

/// For each door, by number, the set of all doors that have to come ahead of it, by a pair or by several, one after the other.
pub fn doors_ahead(ahead: &[DoorSet; 17]) -> [DoorSet; 17]
    ensures { (i j : ℕ) → Has (slice_index result j) i ↔ IsChained ahead.now i j }
{
    let mut all = [0; 17];
    for (j, set) in all.iter_mut().enumerate() {
        *set = all_ahead(ahead, j);
    }
    all
}
