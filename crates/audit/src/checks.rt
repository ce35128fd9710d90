//! What is held against the lister's orders after each call.
use crate::ahead::Ahead;
use crate::case::{Case, LENT, is_same};
use crate::fault::Fault;
use crate::paths::{first_gap, place_reached};
use crate::seen::Seen;
use lister::list::Listed;
use rules::rule::Rule;
use tallies::tally::Tally;

/// The last minute to leave the end.
const LATEST: i32 = 9_999;

impl<'a, R: Rule, T: Tally> Case<'a, R, T, T::Value> {
    /// The last minute to leave a door, or the yard, for door j, if the work at j has to end by minute `last` too.
    fn last_before(&self, last: i32, from: usize, j: usize) -> i32 {
        let door = self.round.door(j);
        last.min(i32::from(door.closes))
            .saturating_sub(i32::from(door.work))
            .saturating_sub(self.round.drive(from, j) as i32)
    }

    /// The last minute to leave the node that the doors lead to is not below this one.
    fn check_late(&self, seen: &Seen<T::Value>, doors: &[usize], last: i32) -> Result<(), Fault> {
        match place_reached(&seen.arcs, self.width, doors) {
            Some(place) if place < LENT && seen.lates[place] >= last => Ok(()),
            _ => Err(Fault::LateBelow),
        }
    }

    /// At each node on the way of the order the last minute to leave is not below the one at which the order can leave and keep
    /// all later hours.
    fn check_lates(&self, seen: &Seen<T::Value>, doors: &[usize]) -> Result<(), Fault> {
        let mut last = LATEST;
        self.check_late(seen, doors, last)?;
        for k in (0..doors.len()).rev() {
            let from = match k.checked_sub(1) {
                Some(before) => doors[before],
                None => 0,
            };
            last = self.last_before(last, from, doors[k]);
            self.check_late(seen, &doors[..k], last)?;
        }
        Ok(())
    }

    /// A wanted order is a path that each of its nodes lets go on in time, the bound is not above its cost, and each must that is
    /// yes holds in it.
    fn check_order(&self, seen: &Seen<T::Value>, order: &Listed<T::Value>) -> Result<(), Fault> {
        let doors = &order.doors[..self.round.n];
        if first_gap(&seen.arcs, self.width, doors).is_some() {
            return Err(Fault::OrderLost);
        }
        self.check_lates(seen, doors)?;
        if seen.musts.both(Ahead::of(doors)) != seen.musts {
            return Err(Fault::MustBroken);
        }
        match seen.bound {
            Some(bound) if self.tally.not_above(bound, order.cost) => Ok(()),
            Some(_) => Err(Fault::BoundAbove),
            None => Err(Fault::BoundMissing),
        }
    }

    /// Once settled, each path is an allowed order, the bound is the least cost of a path, and a must is yes if it holds on each
    /// path. There are as many paths as allowed orders if each of these is wanted.
    fn check_settled(&self, seen: &Seen<T::Value>, wanted: usize) -> Result<(), Fault> {
        let paths = self.all_paths(&seen.arcs)?;
        let least = match (seen.bound, paths.least) {
            (None, None) => true,
            (Some(bound), Some(cost)) => is_same(self.tally, bound, cost),
            _ => false,
        };
        if !least {
            return Err(Fault::BoundNotLeast);
        }
        let allowed = self.orders.len();
        if wanted == allowed && paths.count != allowed {
            return Err(Fault::MorePaths);
        }
        if seen.musts != paths.ahead {
            return Err(Fault::MustNotExact);
        }
        Ok(())
    }

    /// All that holds of a diagram with these wanted orders.
    pub(crate) fn check(
        &self,
        seen: &Seen<T::Value>,
        wanted: &[Listed<T::Value>],
    ) -> Result<(), Fault> {
        for order in wanted {
            self.check_order(seen, order)?;
        }
        if seen.settled {
            self.check_settled(seen, wanted.len())?;
        }
        Ok(())
    }
}
