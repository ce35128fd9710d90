//! Sets of doors as masks, and part orders.
#![tactic(auto)]

ghost use Rattle.std.specs.Prelude.{◌≡◌, ◌^◌, ◌<◌, ◌≤◌, bit_or};
ghost use Rattle.doors.specs.Sets.{has};

/// A set of places: bit j stands for door j, and bit 0 for the yard.
pub type DoorSet = u32;

/// Whether j is in the set; no number above 31 is.
pub fn contains(set: DoorSet, j: usize) -> bool
    ensures { result ≡ has set j }
{
    j < 32 && (set >> j) & 1 == 1
}

/// The set and j; it stays as it is for a number above 31.
pub fn with(set: DoorSet, j: usize) -> DoorSet
    ensures added { j < 32 → result ≡ bit_or set (2 ^ j) }
    ensures beyond { 32 ≤ j → result ≡ set }
{
    if j < 32 { set | (1 << j) } else { set }
}
