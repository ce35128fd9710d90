//! The allowed orders of a round, with their costs.
ghost use Rattle.std.specs.Prelude.{◌≡◌, ℕ, List, take, drop, All, AllPairs, Contains, IfOk, OnOk, IfSome, MatchOption};
ghost use Rattle.std.specs.List.{range_with_len};
ghost use Rattle.orders.specs.Allowed.{IsAllowed};
ghost use Rattle.orders.specs.Costs.{cost};
ghost use Rattle.lister.specs.Listed.{IsGood, LooksAt, listed_orders};
ghost use Rattle.lister.specs.Orders.{ComesBefore};

use crate::next::next_order;
use orders::order::Order;
use orders::verdict::Verdict;
use round::table::Round;
use rules::rule::Rule;
use std::alloc::{AllocError, Global};
use tallies::tally::Tally;

/// An allowed order, at the first n places, and its cost. The later places have the later doors by
/// number.
#[derive(Clone, Copy)]
pub struct Listed<V> {
    pub doors: [usize; 16],
    pub cost: V,
}

/// The doors by number: the first n are the first of all orders of n doors.
pub const BY_NUMBER: [usize; 16] = [1, 2, 3, 4, 5, 6, 7, 8, 9, 10, 11, 12, 13, 14, 15, 16];

/// The cost of the list of doors, if it is an allowed order.
pub fn cost_if_allowed<'a, R: Rule, T: Tally>(
    round: &'a Round,
    rule: &R,
    tally: &T,
    doors: &'a [usize],
) -> Option<T::Value>
    ensures cost { IfSome result (λ c. c ≡ cost round.now (T.Tally.sense tally.now) doors.now) }
    ensures allowed { R.Rule.serves rule.now round.now.n →
        MatchOption result (¬ IsAllowed round.now (R.Rule.keeps rule.now) doors.now)
        (λ _. IsAllowed round.now (R.Rule.keeps rule.now) doors.now) }
{
    let order = Order::of(round, doors)?;
    match order.verdict(rule) {
        Verdict::Allowed => Some(order.cost(tally)),
        _ => None,
    }
}

/// Looks at one more order.
fn look<R: Rule, T: Tally>(
    round: &Round,
    rule: &R,
    tally: &T,
    doors: [usize; 16],
    allowed: &mut Vec<Listed<T::Value>>,
) -> Result<(), AllocError>
    requires { drop round.now.n doors ≡ drop round.now.n (range_with_len 1 16) }
    ensures good { R.Rule.serves rule.now round.now.n →
        All (IsGood round.now (R.Rule.keeps rule.now) (T.Tally.sense tally.now)) allowed.old.items →
        All (IsGood round.now (R.Rule.keeps rule.now) (T.Tally.sense tally.now)) allowed.new.items }
    ensures orders { R.Rule.serves rule.now round.now.n →
        OnOk result (LooksAt round.now (R.Rule.keeps rule.now) (take round.now.n doors)
        (listed_orders round.now.n allowed.old.items)
        (listed_orders round.now.n allowed.new.items)) }
{
    if let Some(cost) = cost_if_allowed(round, rule, tally, &doors[..round.n]) {
        allowed.push(Listed { doors, cost })?;
    }
    Ok(())
}

/// All allowed orders of the round, each once, in dictionary order: by number of the first door,
/// then of the second, and so on. Every order of the doors is looked at, allowed or not: 40,320 of
/// 8 doors, and some 20,000,000,000,000 of 16.
pub fn list<R: Rule, T: Tally>(
    alloc: Global,
    round: &Round,
    rule: &R,
    tally: &T,
) -> Result<Vec<Listed<T::Value>>, AllocError>
    ensures sound { R.Rule.serves rule.now round.now.n →
        IfOk result (λ l.
        All (IsGood round.now (R.Rule.keeps rule.now) (T.Tally.sense tally.now)) l.items) }
    ensures whole { R.Rule.serves rule.now round.now.n →
        IfOk result (λ l. (w : List ℕ) → IsAllowed round.now (R.Rule.keeps rule.now) w →
        Contains (listed_orders round.now.n l.items) w) }
    ensures ascending { R.Rule.serves rule.now round.now.n →
        IfOk result (λ l. AllPairs ComesBefore (listed_orders round.now.n l.items)) }
{
    let mut allowed = Vec::new(alloc);
    let mut doors = BY_NUMBER;
    loop {
        look(round, rule, tally, doors, &mut allowed)?;
        if !next_order(&mut doors[..round.n]) {
            return Ok(allowed);
        }
    }
}
