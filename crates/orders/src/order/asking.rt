//! When each door of an order finishes, what the order costs, and what is wrong with it.
ghost use Rattle.std.specs.Prelude.{◌≡◌, ℕ, ◌≤◌, IfOk, slice_index};
ghost use Rattle.round.specs.Clock.{latest_finish};
ghost use Rattle.orders.specs.Costs.{cost};
ghost use Rattle.orders.specs.Times.{yard, finish_minutes};
ghost use Rattle.orders.specs.Verdicts.{verdict, verdict_from, VerdictMeans};

use super::Order;
use crate::van::Van;
use crate::verdict::Verdict;
use round::table::Round;
use rules::rule::Rule;
use std::alloc::{AllocError, Global};
use tallies::tally::Tally;

impl<'a> Order<'a> {
    /// The minutes at which the doors finish, in their order.
    pub fn finishes(&self, alloc: Global) -> Result<Vec<u32>, AllocError>
        ensures value { IfOk result
            (λ v. v.items ≡ finish_minutes self.now.round.now self.now.doors.now) }
        ensures bound { IfOk result (λ v. (k : ℕ) → slice_index v.items k ≤ latest_finish 16) }
    {
        let mut minutes = Vec::new(alloc);
        let mut van = Van::at_yard();
        for j in self.doors {
            van = van.goes(self.round, *j);
            minutes.push(van.finish)?;
        }
        Ok(minutes)
    }

    /// What the order costs by this tally.
    #[tactic(auto, using(crate::proofs::Times::soon_on_trip))]
    pub fn cost<T: Tally>(&self, tally: &T) -> T::Value
        ensures { result ≡ cost self.now.round.now (T.Tally.sense tally.now) self.now.doors.now }
    {
        let mut van = Van::at_yard();
        let mut value = tally.start();
        for j in self.doors {
            let leg = self.round.drive(van.last, *j);
            van = van.goes(self.round, *j);
            value = tally.step(value, *j, leg, van.finish);
        }
        value
    }

    /// Whether the order is allowed under this rule, or its first fault.
    pub fn verdict<R: Rule>(&self, rule: &R) -> Verdict
        ensures value { result ≡ verdict self.now.round.now (R.Rule.sense rule.now)
            self.now.doors.now }
        ensures means { R.Rule.serves rule.now self.now.round.now.n
            → VerdictMeans self.now.round.now (R.Rule.keeps rule.now) self.now.doors.now result }
    {
        if self.doors.len() == self.round.n {
            self.first_fault(rule)
        } else {
            Verdict::Incomplete
        }
    }

    /// The first door that closes too early or breaks the rule, if there is one.
    fn first_fault<R: Rule>(&self, rule: &R) -> Verdict
        ensures { result ≡ verdict_from self.now.round.now (R.Rule.sense rule.now) yard
            (R.Rule.sense rule.now).start self.now.doors.now }
    {
        let mut van = Van::at_yard();
        let mut state = rule.start();
        for j in self.doors {
            van = van.goes(self.round, *j);
            if u32::from(self.round.door(*j).closes) < van.finish {
                return Verdict::Closes(*j);
            }
            if rule.bars(state, *j) {
                return Verdict::Breaks(*j);
            }
            state = rule.step(state, *j);
        }
        Verdict::Allowed
    }
}
