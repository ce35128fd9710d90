//! Whether the in-arcs of each node agree.
ghost use Rattle.std.specs.Prelude.{◌≡◌, ◌+◌, ◌≤◌, length};
ghost use Rattle.tallies.specs.Tallies.{TallySense};
ghost use Rattle.layers.specs.Settings.{setting, lent_setting};
ghost use Rattle.labels.specs.Passes.{part};
ghost use Rattle.split.specs.Steps.{node_count, agreed_to, agreed_steps};
ghost use Rattle.split.specs.Words.{AgreedDone};

use crate::agreement::alike;
use crate::counting::count_in;
use crate::listing::{InArcs, list_layer, no_in_arcs};
use labels::room::has_room;
use layers::node::Node;
use layers::setting::Setting;
use round::table::Round;
use rules::rule::Rule;

/// Whether the in-arcs of each node agree of the layer after that at `at`; `list` is room for them.
fn layer_agreed<R: Rule, T, V: Copy>(
    by: &Setting<'_, R, T>,
    nodes: &[Node<R::State, V>],
    at: usize,
    list: &mut InArcs,
) -> bool
    requires two_in_bounds { at + by.now.width + by.now.width ≤ length nodes.now }
    requires width_bound { by.now.width ≤ 128 }
    ensures { (tally : TallySense V)
        → let by = lent_setting by.now (R.sense by.now.rule.now) tally in
        result ≡ agreed_to by (node_count (at + by.width) by.width nodes.now)
        (part at by.width nodes.now) }
{
    let us = &nodes[at..at + by.width];
    let count = count_in(nodes, at + by.width, by.width);
    list_layer(us, list);
    let mut all = true;
    for b in 0..count {
        all &= alike(by, us, list, b as u8 + 1);
    }
    all
}

/// Whether the in-arcs of each node of the layers 1 to n - 1 agree. No for a list that has no room for the round's diagram.
#[tactic(auto, unfolding(crate::specs::Steps::agreed_layers, crate::specs::Steps::agreed_steps))]
pub fn agreed<R: Rule, V: Copy>(
    round: &Round,
    rule: &R,
    nodes: &[Node<R::State, V>],
    width: usize,
) -> bool
    ensures steps { (tally : TallySense V)
        → result ≡ agreed_steps (setting round.now (R.sense rule.now) tally width) nodes.now }
    ensures words { (tally : TallySense V)
        → AgreedDone (setting round.now (R.sense rule.now) tally width) nodes.now result }
{
    if !has_room(round, width, nodes.len()) {
        return false;
    }
    let by = Setting {
        round,
        rule,
        tally: &(),
        width,
    };
    let mut list = no_in_arcs();
    let mut all = true;
    for k in 0..round.n - 1 {
        all &= layer_agreed(&by, nodes, k * width, &mut list);
    }
    all
}
