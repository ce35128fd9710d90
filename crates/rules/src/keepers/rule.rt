//! `Keepers` is a side rule: a state is a set of doors, and stands for the part orders that end with one of them; 0 is in it where
//! the part order may be empty.
ghost use Rattle.std.specs.Prelude.{◌≡◌};
ghost use Rattle.doors.specs.Sets.{Has};
ghost use Rattle.rules.specs.Keepers.{IsSpaced, keepers_sense, last_door};
ghost use Rattle.rules.specs.KeepersLaws.{keepers_lawful, keepers_lawful_for};

use super::Keepers;
use crate::rule::Rule;
use doors::{DoorSet, with};

impl<'a> Rule for Keepers<'a> {
    type State = DoorSet;

    ghost serves = { λ r n. r.round.now.n ≡ n };

    ghost sense = { λ r. keepers_sense r.round.now.n r.round.now.keepers };

    ghost keeps = { λ r w. IsSpaced r.round.now.keepers w };

    ghost stands = { λ r s w. Has s (last_door w) };

    ghost lawful = { λ r n e. keepers_lawful_for r.round.now n e };

    ghost reflexive = { λ r s. (keepers_lawful r.round.now).same_self s };

    fn start(&self) -> DoorSet {
        with(0, 0)
    }

    fn step(&self, s: DoorSet, j: usize) -> DoorSet {
        if self.round.has_door(j) {
            with(0, j)
        } else {
            s
        }
    }

    fn cover(&self, s: DoorSet, t: DoorSet) -> DoorSet {
        s | t
    }

    fn bars(&self, s: DoorSet, j: usize) -> bool {
        if !self.round.has_door(j) {
            return false;
        }
        let others = self.others[j];
        s & others != 0 && s & with(others, j) == s
    }

    fn same(&self, s: DoorSet, t: DoorSet) -> bool {
        s == t
    }
}
