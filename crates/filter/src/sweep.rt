//! Sweep: the filter by the six tests.
ghost use Rattle.std.specs.Prelude.{◌≡◌, ◌+◌, ◌-◌, ◌<◌, length, nat_lt, if◌then◌else◌, ⊤};
ghost use Rattle.round.specs.Clock.{door};
ghost use Rattle.layers.specs.Settings.{lent_setting};
ghost use Rattle.layers.specs.Labels.{leg, arrival_finish, is_barred};
ghost use Rattle.labels.specs.Passes.{fits};
ghost use Rattle.filter.specs.Kept.{few};
ghost use Rattle.filter.specs.Steps.{arc_count, sweep_steps, sweep_labelled_steps, SweepDone, SweepLabelledDone};

use crate::redo::filter;
use crate::test::{Arc, Test};
use doors::{DoorSet, contains};
use labels::room::has_room;
use layers::node::{Down, Node, Up};
use layers::setting::Setting;
use rules::rule::Rule;
use std::marker::PhantomData;
use tallies::tally::Tally;

/// Whether the set with j has fewer than `need` doors.
fn too_few(set: DoorSet, j: usize, need: u32) -> bool
    requires { j < 17 }
    ensures { result ≡ few set j need }
{
    (set | (1u32 << j)).count_ones() < need
}

/// Whether the work at the arc's door would end after it closes, in u64 since any finish may stand.
fn too_late<S: Copy, V: Copy>(arc: &Arc<'_>, u: &Down<S, V>) -> bool
    requires { arc.now.leg ≡ leg arc.now.round.now u.now.lasts arc.now.door }
    ensures { let r = arc.now.round.now in let j = arc.now.door in
        result ≡ nat_lt (door r j).closes (arrival_finish r u.now j) }
{
    let end = arc.round.finish(u.finish, arc.leg, arc.door);
    u64::from(arc.round.door(arc.door).closes) < end
}

/// The six tests. A tally has no say in them: its values stand for themselves.
#[derive(Drop)]
pub(crate) struct SixTests<'a, R, V> {
    pub(crate) rule: &'a R,
    pub(crate) values: PhantomData<V>,
}

impl<'a, R: Rule, V: Copy> Test for SixTests<'a, R, V> {
    type State = R::State;

    type Value = V;

    ghost goes = { λ t r. is_barred r (R.Rule.sense t.rule.now) };

    ghost fits = { λ t u. ⊤ };

    fn takes_out(&self, arc: &Arc<'_>, u: &Down<R::State, V>, v: &Up) -> bool {
        let j = arc.door;
        contains(u.all, j)
            || too_few(u.some, j, arc.layer as u32 + 1)
            || contains(v.allup, j)
            || too_few(v.someup, j, arc.left as u32)
            || too_late(arc, u)
            || self.rule.bars(u.state, j)
    }
}

/// Takes out each arc that one of the six tests bars, by the labels that stand, tidies and labels anew, and answers how many
/// arcs went. A list that has no room for the diagram is left alone.
pub fn sweep<R: Rule, T: Tally>(
    by: &Setting<'_, R, T>,
    nodes: &mut [Node<R::State, T::Value>],
) -> usize
    ensures steps { let by = lent_setting by.now (R.sense by.now.rule.now)
        (T.sense by.now.tally.now) in
        nodes.new ≡ (if fits by.round.n by.width (length nodes.old) then sweep_steps by nodes.old
        else nodes.old) }
    ensures counted { let n = by.now.round.now.n in
        result ≡ (if fits n by.now.width (length nodes.old)
        then arc_count n by.now.width nodes.old - arc_count n by.now.width nodes.new else 0) }
    ensures words { let by = lent_setting by.now (R.sense by.now.rule.now)
        (T.sense by.now.tally.now) in
        SweepDone by nodes.old nodes.new result }
{
    if !has_room(by.round, by.width, nodes.len()) {
        return 0;
    }
    let tests = SixTests {
        rule: by.rule,
        values: PhantomData,
    };
    filter(by, &tests, nodes, false)
}

/// The same of records whose labels are those that this setting gives: if no arc goes, there is
/// nothing to tidy and to label, and the list stays as it is.
pub fn sweep_labelled<R: Rule, T: Tally>(
    by: &Setting<'_, R, T>,
    nodes: &mut [Node<R::State, T::Value>],
) -> usize
    ensures steps { let by = lent_setting by.now (R.sense by.now.rule.now)
        (T.sense by.now.tally.now) in
        nodes.new ≡ (if fits by.round.n by.width (length nodes.old)
        then sweep_labelled_steps by nodes.old else nodes.old) }
    ensures counted { let n = by.now.round.now.n in
        result ≡ (if fits n by.now.width (length nodes.old)
        then arc_count n by.now.width nodes.old - arc_count n by.now.width nodes.new else 0) }
    ensures words { let by = lent_setting by.now (R.sense by.now.rule.now)
        (T.sense by.now.tally.now) in
        SweepLabelledDone by nodes.old nodes.new result }
{
    if !has_room(by.round, by.width, nodes.len()) {
        return 0;
    }
    let tests = SixTests {
        rule: by.rule,
        values: PhantomData,
    };
    filter(by, &tests, nodes, true)
}
