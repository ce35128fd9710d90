//! Whether a sweep would take out no arc.
ghost use Rattle.std.specs.Prelude.{◌≡◌, ◌+◌, ◌*◌, ◌<◌, ◌≤◌, false, length, take, if◌then◌else◌};
ghost use Rattle.std.specs.List.{AllByRecursion, list_all};
ghost use Rattle.labels.specs.Passes.{fits};
ghost use Rattle.filter.specs.Kept.{HasLabel, stays, all_stay};
ghost use Rattle.filter.specs.Steps.{quiet_steps, QuietDone};

use crate::sweep::SixTests;
use crate::take::{Filter, Step, thin_node};
use crate::test::Test;
use labels::room::has_room;
use layers::node::Node;
use round::table::Round;
use rules::rule::Rule;
use std::marker::PhantomData;
use tidying::count::count_nodes;

/// Whether no arc of these nodes goes.
fn nodes_stay<F: Test>(
    at: &Step<'_, F, F::State, F::Value>,
    us: &[Node<F::State, F::Value>],
) -> bool
    requires layer_bound { at.now.layer ≤ 16 }
    requires left_bound { at.now.left ≤ 16 }
    requires fits { AllByRecursion (HasLabel (F.fits at.now.test.now)) us.now }
    ensures { let goes = F.goes at.now.test.now at.now.round.now in
        result ≡ list_all (stays goes at.now.layer at.now.left at.now.next.now) us.now }
{
    for a in 0..us.len() {
        let mut node = us[a];
        if thin_node(at, &mut node) != 0 {
            return false;
        }
    }
    true
}

/// The same from a layer on, with `left` layers of arcs from it to the end.
fn stay_from<F: Test>(
    by: &Filter<'_, F>,
    layer: usize,
    left: usize,
    nodes: &[Node<F::State, F::Value>],
) -> bool
    requires layer_bound { layer + left ≤ 16 }
    requires width_in_bounds { left * by.now.width < length nodes.now }
    requires fits { AllByRecursion (HasLabel (F.fits by.now.test.now))
        (take (left * by.now.width) nodes.now) }
    ensures { let goes = F.goes by.now.test.now by.now.round.now in
        result ≡ all_stay goes by.now.width layer left nodes.now }
{
    if left == 0 {
        return true;
    }
    let (us, rest) = nodes.split_at(by.width);
    let at = Step {
        round: by.round,
        test: by.test,
        layer,
        left,
        next: rest,
    };
    let many = count_nodes(us);
    nodes_stay(&at, &us[..many]) && stay_from(by, layer + 1, left - 1, rest)
}

/// Whether none of the six tests bars an arc, by the labels that stand. A tally has no say in it.
/// Of a list that has no room for the diagram the answer is no.
pub fn quiet<R: Rule, V: Copy>(
    round: &Round,
    rule: &R,
    nodes: &[Node<R::State, V>],
    width: usize,
) -> bool
    ensures steps { result ≡ (if fits round.now.n width (length nodes.now)
        then quiet_steps round.now (R.sense rule.now) width nodes.now else false) }
    ensures words { QuietDone round.now (R.sense rule.now) width nodes.now result }
{
    if !has_room(round, width, nodes.len()) {
        return false;
    }
    let test: SixTests<'_, R, V> = SixTests {
        rule,
        values: PhantomData,
    };
    let by = Filter {
        round,
        width,
        test: &test,
    };
    stay_from(&by, 0, round.n, nodes)
}
