//! Joining two nodes of a layer: one node with the in-arcs and the out-arcs of both.
ghost use Rattle.std.specs.Prelude.{◌≡◌, ◌+◌, ◌-◌, ◌<◌, ◌≤◌, max, length, Err, MatchResult, ◌==◌};
ghost use Rattle.layers.specs.declared.node.Node.{Node as ANode};
ghost use Rattle.layers.specs.Settings.{lent_setting};
ghost use Rattle.split.specs.Steps.{pair_check, clash_at, join_check, joined_one, join_steps};
ghost use Rattle.split.specs.Asked.{MayJoin};
ghost use Rattle.split.specs.Words.{JoinDone};

use crate::check::{check_node, check_place};
use crate::counting::count_in;
use crate::uniting::{clashes, unite};
use labels::blank::blank_node;
use labels::relabel::relabel;
use layers::node::Node;
use layers::refusal::Refusal;
use layers::setting::Setting;
use rules::rule::Rule;
use tallies::tally::Tally;

/// Whether nodes a and b of the layer whose records begin at `at` are two, and have no arcs by one door to different nodes.
fn check_pair<S: Copy, V: Copy>(
    nodes: &[Node<S, V>],
    at: usize,
    a: usize,
    b: usize,
) -> Result<(), Refusal>
    requires one_le_a { 1 ≤ a }
    requires one_le_b { 1 ≤ b }
    requires b_in_bounds { at + max a b < length nodes.now }
    ensures { (z : ANode S V) → result ≡ pair_check (a == b) (clash_at z at a b nodes.now) }
{
    if a == b {
        return Err(Refusal::SameNode);
    }
    let x = nodes[at + (a.min(b) - 1)];
    let y = nodes[at + (a.max(b) - 1)];
    if clashes(&x, &y) {
        return Err(Refusal::Clash);
    }
    Ok(())
}

/// Whether nodes a and b of the layer can be joined.
#[tactic(auto, unfolding(crate::specs::Steps::join_check))]
fn check_join<R: Rule, T: Tally>(
    by: &Setting<'_, R, T>,
    nodes: &[Node<R::State, T::Value>],
    layer: usize,
    a: usize,
    b: usize,
) -> Result<(), Refusal>
    ensures { let by = lent_setting by.now (R.sense by.now.rule.now) (T.sense by.now.tally.now) in
        MatchResult result (λ _. MayJoin by layer a b nodes.now)
        (λ e. join_check by layer a b nodes.now ≡ Err e) }
{
    check_place(by.round.n, by.width, nodes.len(), layer)?;
    let at = (layer - 1) * by.width + by.width;
    let count = count_in(nodes, at, by.width);
    check_node(count, a)?;
    check_node(count, b)?;
    check_pair(nodes, at, a, b)
}

/// Joins the nodes lo and hi of the layer after that at `at`.
fn join_nodes<R: Rule, T: Tally>(
    by: &Setting<'_, R, T>,
    nodes: &mut [Node<R::State, T::Value>],
    at: usize,
    lo: usize,
    hi: usize,
)
    requires two_in_bounds { at + by.now.width + by.now.width < length nodes.old }
    requires width_bound { by.now.width ≤ 128 }
    requires one_le_lo { 1 ≤ lo }
    requires lo_lt_hi { lo < hi }
    requires hi_le_width { hi ≤ by.now.width }
    ensures { let by = lent_setting by.now (R.sense by.now.rule.now) (T.sense by.now.tally.now) in
        nodes.new ≡ joined_one by at (lo - 1) (hi - 1) nodes.old }
{
    let blank = blank_node(by.rule, by.tally);
    let rest = nodes.split_at_mut(at).1;
    unite(rest, by.width, lo as u8, hi as u8, &blank);
}

/// Joins nodes a and b of the layer: a node with the out-arcs of both stands at the lower of the two places, the nodes after
/// the other move down, and all labels are worked out anew. A refusal alters nothing.
pub fn join<R: Rule, T: Tally>(
    by: &Setting<'_, R, T>,
    nodes: &mut [Node<R::State, T::Value>],
    layer: usize,
    a: usize,
    b: usize,
) -> Result<(), Refusal>
    ensures answer { let by = lent_setting by.now (R.sense by.now.rule.now)
        (T.sense by.now.tally.now) in result ≡ join_check by layer a b nodes.old }
    ensures steps { let by = lent_setting by.now (R.sense by.now.rule.now)
        (T.sense by.now.tally.now) in nodes.new ≡ join_steps by layer a b nodes.old }
    ensures words { let by = lent_setting by.now (R.sense by.now.rule.now)
        (T.sense by.now.tally.now) in JoinDone by nodes.old layer a b result nodes.new }
{
    check_join(by, nodes, layer, a, b)?;
    let at = (layer - 1) * by.width;
    join_nodes(by, nodes, at, a.min(b), a.max(b));
    relabel(by, nodes);
    Ok(())
}
