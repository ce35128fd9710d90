//! Goes through all paths of a diagram, and holds each to be an allowed order.
use crate::ahead::Ahead;
use crate::case::Case;
use crate::fault::Fault;
use layers::node::Arcs;
use lister::list::cost_if_allowed;
use rules::rule::Rule;
use tallies::tally::Tally;

/// How many lists are looked at, at most: more than 6 doors have.
const MOST: usize = 100_000;

/// What was met: how many paths, the least of their costs, and which doors stand ahead of which in all of them.
#[derive(Clone, Copy)]
pub(crate) struct Paths<V> {
    pub(crate) count: usize,
    pub(crate) least: Option<V>,
    pub(crate) ahead: Ahead,
}

/// The node of the next layer, counted from 0, to which the arc by a door leads from a place.
fn target(arcs: &[Arcs], place: usize, door: usize) -> Option<usize> {
    if arcs.len() <= place || door < 1 || 16 < door {
        return None;
    }
    usize::from(arcs[place].to[door - 1]).checked_sub(1)
}

/// The first place of the list whose door has no arc, walking from the first node; none if the list is a path.
pub(crate) fn first_gap(arcs: &[Arcs], width: usize, doors: &[usize]) -> Option<usize> {
    let mut node = 0;
    for (layer, door) in doors.iter().enumerate() {
        let place = layer.saturating_mul(width).saturating_add(node);
        let Some(next) = target(arcs, place, *door) else {
            return Some(layer);
        };
        node = next;
    }
    None
}

/// The place to which the doors lead from the first node; none if one of them has no arc.
pub(crate) fn place_reached(arcs: &[Arcs], width: usize, doors: &[usize]) -> Option<usize> {
    let mut place = 0;
    for (layer, door) in doors.iter().enumerate() {
        let node = target(arcs, place, *door)?;
        place = layer
            .saturating_add(1)
            .saturating_mul(width)
            .saturating_add(node);
    }
    Some(place)
}

/// The next list of doors 1 to n in dictionary order, if there is one.
fn advance(doors: &mut [usize], n: usize) -> bool {
    for door in doors.iter_mut().rev() {
        if *door < n {
            *door += 1;
            return true;
        }
        *door = 1;
    }
    false
}

impl<'a, R: Rule, T: Tally> Case<'a, R, T, T::Value> {
    /// With one more path.
    fn met(&self, paths: Paths<T::Value>, doors: &[usize]) -> Result<Paths<T::Value>, Fault> {
        let Some(cost) = cost_if_allowed(self.round, self.rule, self.tally, doors) else {
            return Err(Fault::PathNotAllowed);
        };
        let least = match paths.least {
            Some(other) => self.tally.lesser(other, cost),
            None => cost,
        };
        Ok(Paths {
            count: paths.count.saturating_add(1),
            least: Some(least),
            ahead: paths.ahead.both(Ahead::of(doors)),
        })
    }

    /// All paths, if each is an allowed order. Where a list ends at a gap, all that begin like it are passed over.
    pub(crate) fn all_paths(&self, arcs: &[Arcs]) -> Result<Paths<T::Value>, Fault> {
        let n = self.round.n;
        let mut doors = [1; 16];
        let mut paths = Paths {
            count: 0,
            least: None,
            ahead: Ahead::all(n),
        };
        for _ in 0..MOST {
            let end = match first_gap(arcs, self.width, &doors[..n]) {
                Some(layer) => layer.saturating_add(1).min(n),
                None => {
                    paths = self.met(paths, &doors[..n])?;
                    n
                }
            };
            if !advance(&mut doors[..end], n) {
                return Ok(paths);
            }
        }
        Err(Fault::TooManyPaths)
    }
}
