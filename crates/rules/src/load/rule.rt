//! `Load` is a side rule: a state is an interval, and stands for the part orders whose load lies in it.
ghost use Rattle.std.specs.Prelude.{◌≡◌, pos, ◌+ℤ◌, int_lt};
ghost use Rattle.round.specs.Tables.{at};
ghost use Rattle.rules.specs.Loads.{clamped_load, IsWithinCap, LiesBetween, load_sense};
ghost use Rattle.rules.specs.LoadLaws.{load_lawful, load_lawful_for};

use super::{Interval, Load};
use crate::rule::Rule;
use round::table::Round;

/// a + by, held within ±9,999.
fn held_sum(a: i32, by: i32) -> i32
    ensures { result ≡ clamped_load (a +ℤ by) }
{
    a.saturating_add(by).clamp(-9999, 9999)
}

/// Whether a + by is above the cap of the round.
fn above(a: i32, by: i32, round: &Round) -> bool
    ensures { result ≡ int_lt (pos round.now.cap) (a +ℤ by) }
{
    a.saturating_add(by) > i32::from(round.cap)
}

/// Whether a + by is below 0.
fn below_zero(a: i32, by: i32) -> bool
    ensures { result ≡ int_lt (a +ℤ by) (pos 0) }
{
    a.saturating_add(by) < 0
}

impl<'a> Load<'a> {
    /// The load of a round.
    pub fn of(round: &'a Round) -> Load<'a>
        ensures { result.round ≡ round.entry }
    {
        Load { round }
    }
}

impl<'a> Rule for Load<'a> {
    type State = Interval;

    ghost serves = { λ r n. r.round.now.n ≡ n };

    ghost sense = { λ r.
        load_sense r.round.now.n r.round.now.load r.round.now.cap r.round.now.doors };

    ghost keeps = { λ r w. IsWithinCap r.round.now.load r.round.now.cap r.round.now.doors w };

    ghost stands = { λ r s w. LiesBetween r.round.now.load r.round.now.doors s w };

    ghost lawful = { λ r n e. load_lawful_for r.round.now n e };

    ghost reflexive = { λ r s. (load_lawful r.round.now).same_self s };

    fn start(&self) -> Interval {
        let load = i32::from(self.round.load);
        Interval {
            low: load,
            high: load,
        }
    }

    fn step(&self, s: Interval, j: usize) -> Interval {
        if self.round.has_door(j) {
            let by = i32::from(self.round.door(j).change);
            Interval {
                low: held_sum(s.low, by),
                high: held_sum(s.high, by),
            }
        } else {
            s
        }
    }

    fn cover(&self, s: Interval, t: Interval) -> Interval {
        Interval {
            low: s.low.min(t.low),
            high: s.high.max(t.high),
        }
    }

    fn bars(&self, s: Interval, j: usize) -> bool {
        if !self.round.has_door(j) {
            return false;
        }
        let by = i32::from(self.round.door(j).change);
        above(s.low, by, self.round) || below_zero(s.high, by)
    }

    fn same(&self, s: Interval, t: Interval) -> bool {
        s.low == t.low && s.high == t.high
    }
}
