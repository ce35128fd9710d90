//! What kinds of rounds are met.
use crate::case::Case;
use crate::counts::{Counts, note};
use doors::contains;
use lister::list::{BY_NUMBER, list};
use lister::next::next_order;
use orders::order::Order;
use orders::verdict::Verdict;
use round::table::Round;
use rules::both::Both;
use rules::keepers::Keepers;
use rules::load::Load;
use rules::pairs::Pairs;
use rules::rule::Rule;
use std::alloc::{AllocError, Global};
use tallies::tally::Tally;

/// How many orders are looked at, at most: more than 6 doors have.
const MOST: usize = 1_000;

/// Whether some door can never be done, as it comes ahead of itself over other doors.
fn has_ring(round: &Round) -> bool {
    let pairs = Pairs::of(round);
    let mut done = pairs.start();
    for _ in 0..round.n {
        for j in 1..=round.n {
            if !pairs.bars(done, j) {
                done = pairs.step(done, j);
            }
        }
    }
    for j in 1..=round.n {
        if !contains(done, j) {
            return true;
        }
    }
    false
}

/// Whether the first fault of some order is a door that closes too early.
fn is_tight<R: Rule>(round: &Round, rule: &R) -> bool {
    let mut doors = BY_NUMBER;
    for _ in 0..MOST {
        if let Some(order) = Order::of(round, &doors[..round.n]) {
            if let Verdict::Closes(_) = order.verdict(rule) {
                return true;
            }
        }
        if !next_order(&mut doors[..round.n]) {
            return false;
        }
    }
    false
}

/// Whether some door has a keeper.
fn has_keepers(round: &Round) -> bool {
    round.keepers.iter().any(|keeper| *keeper > 0)
}

/// The round with starts at any minute.
fn at_any_minute(round: &Round) -> Round {
    let mut free = *round;
    free.grid = 1;
    free
}

impl<'a, R: Rule, T: Tally> Case<'a, R, T, T::Value> {
    /// Whether no order costs less.
    fn is_least(&self, cost: T::Value) -> bool {
        for other in self.orders {
            if !self.tally.not_above(cost, other.cost) {
                return false;
            }
        }
        true
    }

    /// Whether two orders or more have the least cost.
    fn has_equal(&self) -> bool {
        let mut count = 0;
        for order in self.orders {
            note(&mut count, self.is_least(order.cost));
        }
        count > 1
    }

    /// How many orders keep the hours and this rule.
    fn count_under<K: Rule>(&self, alloc: Global, rule: &K) -> Result<usize, AllocError> {
        Ok(list(alloc, self.round, rule, self.tally)?.len())
    }

    /// Counts which rules of the round rule out an order that its other rules and its hours allow.
    fn note_rules(&self, alloc: Global, counts: &mut Counts) -> Result<(), AllocError> {
        let allowed = self.orders.len();
        let pairs = Pairs::of(self.round);
        let load = Load::of(self.round);
        let keepers = Keepers::of(self.round);
        let without_pairs = Both {
            first: load,
            second: keepers,
        };
        let without_load = Both {
            first: pairs,
            second: keepers,
        };
        let without_keepers = Both {
            first: pairs,
            second: load,
        };
        let unpaired = self.count_under(alloc, &without_pairs)?;
        let unloaded = self.count_under(alloc, &without_load)?;
        let unkept = self.count_under(alloc, &without_keepers)?;
        note(&mut counts.pairs, unpaired > allowed);
        note(&mut counts.load, unloaded > allowed);
        note(&mut counts.by_keepers, unkept > allowed);
        Ok(())
    }

    /// Counts of what kinds the round is.
    pub(crate) fn note_kinds(&self, alloc: Global, counts: &mut Counts) -> Result<(), AllocError> {
        let round = self.round;
        let allowed = self.orders.len();
        let unlifted = list(alloc, &at_any_minute(round), self.rule, self.tally)?.len();
        let is_tight = is_tight(round, self.rule);
        if let Some(rounds) = counts.doors.get_mut(round.n) {
            note(rounds, true);
        }
        note(&mut counts.ring, has_ring(round));
        note(&mut counts.tight, is_tight);
        note(&mut counts.loose, !is_tight);
        note(&mut counts.equal, self.has_equal());
        note(&mut counts.grids, round.grid > 1);
        note(&mut counts.by_grid, unlifted > allowed);
        note(&mut counts.keepers, has_keepers(round));
        self.note_rules(alloc, counts)
    }
}
