//! Refine: from layer to layer a sweep and all parts, then sweeps until nothing is left to take out.
ghost use Rattle.std.specs.Prelude.{◌≡◌, suc, ◌+◌, ◌-◌, ◌*◌, ◌<◌, ◌≤◌, true, length, nat_lt, if◌then◌else◌};
ghost use Rattle.layers.specs.Settings.{lent_setting};
ghost use Rattle.labels.specs.Passes.{fits};
ghost use Rattle.filter.specs.Steps.{arc_count};
ghost use Rattle.refine.specs.Answers.{IsInnerIfFull};
ghost use Rattle.refine.specs.Steps.{one_sweep, one_layer, some_layers, sweeps_out, refine_steps, RefineDone};

use filter::sweep::{sweep, sweep_labelled};
use labels::relabel::relabel_below;
use labels::room::has_room;
use layers::node::Node;
use layers::refined::Refined;
use layers::setting::Setting;
use rules::rule::Rule;
use split::parting::part_layer;
use tallies::tally::Tally;
use tidying::count::count_arcs;

/// A sweep; `known` says that the labels are known to be those of this setting.
#[tactic(auto, unfolding(crate::specs::Steps::one_sweep))]
fn sweep_once<R: Rule, T: Tally>(
    by: &Setting<'_, R, T>,
    nodes: &mut [Node<R::State, T::Value>],
    known: bool,
) -> usize
    requires { fits by.now.round.now.n by.now.width (length nodes.old) ≡ true }
    ensures records { let by = lent_setting by.now (R.sense by.now.rule.now)
        (T.sense by.now.tally.now) in
        nodes.new ≡ one_sweep by known nodes.old }
    ensures counted { let n = by.now.round.now.n in
        result ≡ arc_count n by.now.width nodes.old - arc_count n by.now.width nodes.new }
{
    if known {
        sweep_labelled(by, nodes)
    } else {
        sweep(by, nodes)
    }
}

/// One layer: a sweep, then all its parts on arcs alone, then the labels that these alter: the downward ones from this layer
/// on, and all upward ones. Answers whether it was full.
fn refine_layer<R: Rule, T: Tally>(
    by: &Setting<'_, R, T>,
    nodes: &mut [Node<R::State, T::Value>],
    i: usize,
) -> bool
    requires { fits by.now.round.now.n by.now.width (length nodes.old) ≡ true }
    ensures full { let by = lent_setting by.now (R.sense by.now.rule.now)
        (T.sense by.now.tally.now) in
        result ≡ (one_layer by i nodes.old).0 }
    ensures records { let by = lent_setting by.now (R.sense by.now.rule.now)
        (T.sense by.now.tally.now) in
        nodes.new ≡ (one_layer by i nodes.old).1 }
{
    sweep_once(by, nodes, i > 1);
    let full = part_layer(by, nodes, i);
    relabel_below(by, nodes, i);
    full
}

fn refine_layers<R: Rule, T: Tally>(
    by: &Setting<'_, R, T>,
    nodes: &mut [Node<R::State, T::Value>],
) -> Refined
    requires { fits by.now.round.now.n by.now.width (length nodes.old) ≡ true }
    ensures within { IsInnerIfFull by.now.round.now.n result }
    ensures answer { let by = lent_setting by.now (R.sense by.now.rule.now)
        (T.sense by.now.tally.now) in
        result ≡ (some_layers by (by.round.n - 1) 1 nodes.old).0 }
    ensures records { let by = lent_setting by.now (R.sense by.now.rule.now)
        (T.sense by.now.tally.now) in
        nodes.new ≡ (some_layers by (by.round.n - 1) 1 nodes.old).1 }
{
    for i in 1..by.round.n {
        if refine_layer(by, nodes, i) {
            return Refined::Full(i);
        }
    }
    Refined::Whole
}

/// Sweeps until one takes out nothing: each but the last takes out an arc. The labels are known once a layer is refined, or
/// a sweep is made.
fn sweep_out<R: Rule, T: Tally>(by: &Setting<'_, R, T>, nodes: &mut [Node<R::State, T::Value>])
    requires { fits by.now.round.now.n by.now.width (length nodes.old) ≡ true }
    ensures { let by = lent_setting by.now (R.sense by.now.rule.now) (T.sense by.now.tally.now) in
        nodes.new ≡ sweeps_out by (nat_lt 1 by.round.n)
        (suc (arc_count by.round.n by.width nodes.old)) nodes.old }
{
    let most = count_arcs(by.round, nodes, by.width);
    let mut known = by.round.n > 1;
    for turn in 0..=most {
        if sweep_once(by, nodes, known) == 0 {
            return;
        }
        known = true;
    }
}

/// Takes layers 1 to n - 1 in turn: sweeps once, then parts each node whose in-arcs do not all agree, up to a layer that has
/// no place for one more. At the end it sweeps until nothing is taken out. A list that has no room for the diagram is left alone,
/// and is whole.
#[tactic(auto, unfolding(crate::specs::Steps::refine_steps))]
pub fn refine<R: Rule, T: Tally>(
    by: &Setting<'_, R, T>,
    nodes: &mut [Node<R::State, T::Value>],
) -> Refined
    ensures steps { let by = lent_setting by.now (R.sense by.now.rule.now)
        (T.sense by.now.tally.now) in
        nodes.new ≡ (if fits by.round.n by.width (length nodes.old)
        then (refine_steps by nodes.old).1 else nodes.old) }
    ensures within { IsInnerIfFull by.now.round.now.n result }
    ensures answer { let by = lent_setting by.now (R.sense by.now.rule.now)
        (T.sense by.now.tally.now) in
        result ≡ (if fits by.round.n by.width (length nodes.old)
        then (refine_steps by nodes.old).0 else Refined.Whole) }
    ensures words { let by = lent_setting by.now (R.sense by.now.rule.now)
        (T.sense by.now.tally.now) in
        RefineDone by nodes.old nodes.new result }
{
    if !has_room(by.round, by.width, nodes.len()) {
        return Refined::Whole;
    }
    let answer = refine_layers(by, nodes);
    sweep_out(by, nodes);
    answer
}
