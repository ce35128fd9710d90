//! A side rule: the order begins with one door. A state is whether the van may have begun.
ghost use Rattle.std.specs.Prelude.{◌≡◌, false, []};
ghost use Rattle.cases.specs.Opener.{Begins, opener_sense};
ghost use Rattle.cases.specs.OpenerLaws.{opener_lawful, opener_lawful_for};

use rules::rule::Rule;

/// The rule that an order begins with this door, in rounds of n doors.
#[derive(Clone, Copy)]
pub struct Opener {
    pub n: usize,
    pub door: usize,
}

impl Rule for Opener {
    type State = bool;

    ghost serves = { λ r n. r.n ≡ n };

    ghost sense = { λ r. opener_sense r.n r.door };

    ghost keeps = { λ r w. Begins r.door w };

    ghost stands = { λ r s w. (s ≡ false → w ≡ []) };

    ghost lawful = { λ r n e. opener_lawful_for r.n r.door n e };

    ghost reflexive = { λ r s. (opener_lawful r.n r.door).same_self s };

    fn start(&self) -> bool {
        false
    }

    fn step(&self, s: bool, j: usize) -> bool {
        s || (1..=self.n).contains(&j)
    }

    fn cover(&self, s: bool, t: bool) -> bool {
        s || t
    }

    fn bars(&self, s: bool, j: usize) -> bool {
        !s && (1..=self.n).contains(&j) && j != self.door
    }

    fn same(&self, s: bool, t: bool) -> bool {
        s == t
    }
}
