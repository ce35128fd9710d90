//! What lies onward from a node, of all doors at once.
ghost use Rattle.std.specs.Prelude.{◌≡◌, ℕ, ◌≤◌, bit_or, slice_index};
ghost use Rattle.seek.specs.Rows.{either, through, view};

use doors::{DoorSet, with};

/// A path to the end; the doors on some path; for each door, the doors that come after it on some path.
#[derive(Clone, Copy, Debug)]
pub(crate) struct Onward {
    pub(crate) ends: bool,
    pub(crate) some: DoorSet,
    pub(crate) after: [DoorSet; 17],
}

/// Nothing.
pub(crate) const NOTHING: Onward = Onward {
    ends: false,
    some: 0,
    after: [0; 17],
};

/// Each set takes in the doors of the other.
fn unite(sets: &mut [DoorSet; 17], more: &[DoorSet; 17])
    ensures { (j : ℕ) → slice_index sets.new j
        ≡ bit_or (slice_index sets.old j) (slice_index more.now j) }
{
    for j in 0..17 {
        sets[j] |= more[j];
    }
}

impl Onward {
    /// Also over an arc by `door`, to a node from which `below` lies onward.
    pub(crate) fn add(&mut self, door: usize, below: &Onward)
        requires { door ≤ 16 }
        ensures { (i j : ℕ) → view i j self.new
            ≡ either (view i j self.old) (through i j door (view i j below.now)) }
    {
        unite(&mut self.after, &below.after);
        self.after[door] |= below.some;
        self.some |= below.some;
        if below.ends {
            self.some = with(self.some, door);
            self.ends = true;
        }
    }
}
