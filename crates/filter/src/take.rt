//! Taking out arcs by a test, by the labels that stand.
ghost use Rattle.std.specs.Prelude.{◌≡◌, ◌+◌, ◌-◌, ◌*◌, ◌<◌, ◌≤◌, map, length, take, slice_index};
ghost use Rattle.std.specs.List.{AllByRecursion};
ghost use Rattle.layers.specs.Labels.{leg};
ghost use Rattle.layers.specs.Targets.{at_door, with_targets};
ghost use Rattle.tidying.specs.Counted.{arcs_of, arcs_within};
ghost use Rattle.filter.specs.Kept.{HasLabel, kept_to, kept_node, kept_from};

use crate::test::{Arc, Test};
use labels::leg::legs;
use labels::outs::list_doors;
use layers::node::Node;
use round::table::Round;
use tidying::count::{count_nodes, count_of};

/// A filter: the round and the width of the diagram, and the test.
#[derive(Drop)]
pub(crate) struct Filter<'a, F> {
    pub(crate) round: &'a Round,
    pub(crate) width: usize,
    pub(crate) test: &'a F,
}

/// A layer that is filtered: the round and the test, the layer's number, how many layers of arcs
/// there are from it to the end, and the records after it.
#[derive(Drop)]
pub(crate) struct Step<'a, F, S, V> {
    pub(crate) round: &'a Round,
    pub(crate) test: &'a F,
    pub(crate) layer: usize,
    pub(crate) left: usize,
    pub(crate) next: &'a [Node<S, V>],
}

/// What is left of u's arc by the door k + 1, where `legs` are those of u; one that leads past the
/// list goes.
fn door_left<F: Test>(
    at: &Step<'_, F, F::State, F::Value>,
    u: &Node<F::State, F::Value>,
    legs: &[u16; 16],
    k: usize,
) -> u8
    requires layer_bound { at.now.layer ≤ 16 }
    requires left_bound { at.now.left ≤ 16 }
    requires k_bound { k < 16 }
    requires is_leg { slice_index legs.now k ≡ leg at.now.round.now u.now.label.down.lasts (k + 1) }
    requires fits { F.fits at.now.test.now u.now.label.down }
    ensures { let goes = F.goes at.now.test.now at.now.round.now in
        result ≡ at_door (kept_to goes at.now.layer at.now.left at.now.next.now u.now) (k + 1)
        (slice_index u.now.arcs.to k) }
{
    let to = u.arcs.to[k];
    let t = to as usize;
    if t == 0 || t > at.next.len() {
        return 0;
    }
    let up = &at.next[t - 1].label.up;
    let arc = Arc {
        round: at.round,
        layer: at.layer,
        left: at.left,
        door: k + 1,
        leg: u32::from(legs[k]),
    };
    if at.test.takes_out(&arc, &u.label.down, up) {
        0
    } else {
        to
    }
}

/// What is left of the targets of u.
fn targets_left<F: Test>(
    at: &Step<'_, F, F::State, F::Value>,
    u: &Node<F::State, F::Value>,
) -> [u8; 16]
    requires layer_bound { at.now.layer ≤ 16 }
    requires left_bound { at.now.left ≤ 16 }
    requires fits { F.fits at.now.test.now u.now.label.down }
    ensures { let goes = F.goes at.now.test.now at.now.round.now in
        with_targets u.now result ≡ kept_node goes at.now.layer at.now.left at.now.next.now u.now }
{
    let legs = legs(at.round, u.label.down.lasts);
    let mut room = [0; 16];
    let many = list_doors(&u.arcs.to, &mut room);
    let doors = &room[..many];
    let mut to = [0; 16];
    for k in doors {
        let k = usize::from(*k);
        to[k] = door_left(at, u, &legs, k);
    }
    to
}

/// Takes out the arcs of u that go, and answers how many.
pub(crate) fn thin_node<F: Test>(
    at: &Step<'_, F, F::State, F::Value>,
    u: &mut Node<F::State, F::Value>,
) -> usize
    requires layer_bound { at.now.layer ≤ 16 }
    requires left_bound { at.now.left ≤ 16 }
    requires fits { F.fits at.now.test.now u.old.label.down }
    ensures left { let goes = F.goes at.now.test.now at.now.round.now in
        u.new ≡ kept_node goes at.now.layer at.now.left at.now.next.now u.old }
    ensures gone { result + arcs_of u.new ≡ arcs_of u.old }
    ensures none { result ≡ 0 → u.new ≡ u.old }
    ensures few { result ≤ 16 }
{
    let before = count_of(u);
    u.arcs.to = targets_left(at, u);
    before - count_of(u)
}

/// Takes out the arcs of the nodes us of a layer that go, and answers how many.
fn thin_nodes<F: Test>(
    at: &Step<'_, F, F::State, F::Value>,
    us: &mut [Node<F::State, F::Value>],
) -> usize
    requires layer_bound { at.now.layer ≤ 16 }
    requires left_bound { at.now.left ≤ 16 }
    requires us_bound { length us.old ≤ 128 }
    requires fits { AllByRecursion (HasLabel (F.fits at.now.test.now)) us.old }
    ensures left { let goes = F.goes at.now.test.now at.now.round.now in
        us.new ≡ map (kept_node goes at.now.layer at.now.left at.now.next.now) us.old }
    ensures gone { result + arcs_within us.new ≡ arcs_within us.old }
    ensures none { result ≡ 0 → us.new ≡ us.old }
    ensures few { result ≤ 16 * length us.old }
{
    let mut gone = 0;
    for u in us.iter_mut() {
        gone += thin_node(at, u);
    }
    gone
}

/// Takes out each arc that goes, from a layer on, with `left` layers of arcs from it to the end, and answers how many.
pub(crate) fn take_from<F: Test>(
    by: &Filter<'_, F>,
    layer: usize,
    left: usize,
    nodes: &mut [Node<F::State, F::Value>],
) -> usize
    requires layer_bound { layer + left ≤ 16 }
    requires width_in_bounds { left * by.now.width < length nodes.old }
    requires width_bound { by.now.width ≤ 128 }
    requires fits { AllByRecursion (HasLabel (F.fits by.now.test.now))
        (take (left * by.now.width) nodes.old) }
    ensures left { let goes = F.goes by.now.test.now by.now.round.now in
        nodes.new ≡ kept_from goes by.now.width layer left nodes.old }
    ensures gone { result + arcs_within nodes.new ≡ arcs_within nodes.old }
    ensures none { result ≡ 0 → nodes.new ≡ nodes.old }
    ensures few { result ≤ 16 * (left * by.now.width) }
{
    if left == 0 {
        return 0;
    }
    let (us, rest) = nodes.split_at_mut(by.width);
    let at = Step {
        round: by.round,
        test: by.test,
        layer,
        left,
        next: rest,
    };
    let many = count_nodes(us);
    let here = thin_nodes(&at, &mut us[..many]);
    let later = take_from(by, layer + 1, left - 1, rest);
    here + later
}
