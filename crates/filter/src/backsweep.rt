//! Backsweep: the filter by the last minute to leave.
ghost use Rattle.std.specs.Prelude.{◌≡◌, ◌-◌, length, pos, int_lt, if◌then◌else◌, ⊤};
ghost use Rattle.layers.specs.Settings.{lent_setting};
ghost use Rattle.layers.specs.Labels.{is_past_late};
ghost use Rattle.labels.specs.Passes.{fits};
ghost use Rattle.filter.specs.Steps.{arc_count, backsweep_steps, BacksweepDone};

use crate::redo::filter;
use crate::test::{Arc, Test};
use labels::room::has_room;
use layers::node::{Down, Node, Up};
use layers::setting::Setting;
use rules::rule::Rule;
use std::marker::PhantomData;
use tallies::tally::Tally;

/// Whether the finish is after the minute, which may be below 0.
fn is_after(finish: u64, late: i32) -> bool
    ensures { result ≡ int_lt late (pos finish) }
{
    late < 0 || (late as u64) < finish
}

/// The last minutes to leave. Neither a rule nor a tally has a say in them: states and values stand for themselves.
#[derive(Drop)]
pub(crate) struct LastMinutes<S, V> {
    pub(crate) states: PhantomData<S>,
    pub(crate) values: PhantomData<V>,
}

impl<S: Copy, V: Copy> Test for LastMinutes<S, V> {
    type State = S;

    type Value = V;

    ghost goes = { λ t r. is_past_late r };

    ghost fits = { λ t u. ⊤ };

    fn takes_out(&self, arc: &Arc<'_>, u: &Down<S, V>, v: &Up) -> bool {
        is_after(arc.round.finish(u.finish, arc.leg, arc.door), v.late)
    }
}

/// Takes out each arc over which its target is reached after the last minute to leave it, by the labels that stand, tidies and
/// labels anew, and answers how many arcs went. A list that has no room for the diagram is left alone.
pub fn backsweep<R: Rule, T: Tally>(
    by: &Setting<'_, R, T>,
    nodes: &mut [Node<R::State, T::Value>],
) -> usize
    ensures steps { let by = lent_setting by.now (R.sense by.now.rule.now)
        (T.sense by.now.tally.now) in
        nodes.new ≡ (if fits by.round.n by.width (length nodes.old)
        then backsweep_steps by nodes.old else nodes.old) }
    ensures counted { let n = by.now.round.now.n in
        result ≡ (if fits n by.now.width (length nodes.old)
        then arc_count n by.now.width nodes.old - arc_count n by.now.width nodes.new else 0) }
    ensures words { let by = lent_setting by.now (R.sense by.now.rule.now)
        (T.sense by.now.tally.now) in
        BacksweepDone by nodes.old nodes.new result }
{
    if !has_room(by.round, by.width, nodes.len()) {
        return 0;
    }
    let test = LastMinutes {
        states: PhantomData,
        values: PhantomData,
    };
    filter(by, &test, nodes, false)
}
