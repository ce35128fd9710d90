//! Cut: the filter by a ceiling.
ghost use Rattle.std.specs.Prelude.{◌≡◌, ◌-◌, ◌*◌, ◌≤◌, ◌&&◌, length, take, if◌then◌else◌};
ghost use Rattle.round.specs.Clock.{latest_finish};
ghost use Rattle.layers.specs.Settings.{lent_setting};
ghost use Rattle.layers.specs.Labels.{is_above_ceiling};
ghost use Rattle.labels.specs.Passes.{fits};
ghost use Rattle.filter.specs.Steps.{timely, arc_count, cut_steps, CutDone};

use crate::redo::filter;
use crate::test::{Arc, Test};
use labels::room::has_room;
use layers::node::{Down, Node, Up};
use layers::setting::Setting;
use round::clock::LATEST_DEPARTURE;
use round::table::Round;
use rules::rule::Rule;
use std::marker::PhantomData;
use tallies::tally::Tally;

/// The ceiling. A rule has no say in it: its states stand for themselves.
#[derive(Drop)]
pub(crate) struct Ceiling<'a, T, S, V> {
    pub(crate) tally: &'a T,
    pub(crate) ceiling: V,
    pub(crate) states: PhantomData<S>,
}

/// A finish that no label has could not be told to the tally, hence the bound.
impl<'a, T: Tally, S: Copy> Test for Ceiling<'a, T, S, T::Value> {
    type State = S;

    type Value = T::Value;

    ghost goes = { λ t r. is_above_ceiling r (T.Tally.sense t.tally.now) t.ceiling };

    ghost fits = { λ t u. u.finish ≤ latest_finish 15 };

    fn takes_out(&self, arc: &Arc<'_>, u: &Down<S, T::Value>, v: &Up) -> bool {
        let j = arc.door;
        let finish = arc.round.finish(u.finish, arc.leg, j) as u32;
        let value = self.tally.step(u.value, j, arc.leg, finish);
        !self.tally.not_above(value, self.ceiling)
    }
}

/// Whether no finish of the first `end` records is above the latest: one that is could not be told to a tally.
fn all_timely<S: Copy, V: Copy>(nodes: &[Node<S, V>], end: usize) -> bool
    requires { end ≤ length nodes.now }
    ensures { result ≡ timely (take end nodes.now) }
{
    nodes[..end]
        .iter()
        .all(|x| x.label.down.finish <= LATEST_DEPARTURE)
}

/// Takes out each arc whose arrival has a value above the ceiling, by the labels that stand, tidies and labels anew, and answers
/// how many arcs went. A list that has no room for the diagram, or has a finish that no diagram has, is left alone.
pub fn cut<R: Rule, T: Tally>(
    by: &Setting<'_, R, T>,
    nodes: &mut [Node<R::State, T::Value>],
    ceiling: T::Value,
) -> usize
    ensures steps { let by = lent_setting by.now (R.sense by.now.rule.now)
        (T.sense by.now.tally.now) in
        nodes.new ≡ (if fits by.round.n by.width (length nodes.old)
        && timely (take (by.round.n * by.width) nodes.old)
        then cut_steps by ceiling nodes.old else nodes.old) }
    ensures counted { let n = by.now.round.now.n in
        result ≡ (if fits n by.now.width (length nodes.old)
        && timely (take (n * by.now.width) nodes.old)
        then arc_count n by.now.width nodes.old - arc_count n by.now.width nodes.new else 0) }
    ensures words { let by = lent_setting by.now (R.sense by.now.rule.now)
        (T.sense by.now.tally.now) in
        CutDone by ceiling nodes.old nodes.new result }
{
    if !has_room(by.round, by.width, nodes.len()) {
        return 0;
    }
    if !all_timely(nodes, by.round.n * by.width) {
        return 0;
    }
    let test = Ceiling {
        tally: by.tally,
        ceiling,
        states: PhantomData,
    };
    filter(by, &test, nodes, false)
}
