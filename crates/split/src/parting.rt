//! Parting a node: the in-arcs that differ from the first go to a new last node of its layer.
ghost use Rattle.std.specs.Prelude.{◌≡◌, suc, ◌+◌, ◌-◌, ◌<◌, ◌≤◌, length, take, nat_le, slice_index_or, slice_set};
ghost use Rattle.layers.specs.declared.node.Node.{Node as ANode};
ghost use Rattle.layers.specs.Settings.{lent_setting};
ghost use Rattle.split.specs.Listed.{IsListed, told_records};
ghost use Rattle.split.specs.Steps.{node_count, group_check, alike, NodeDone, parted_one, part_check, part_steps, next_records, parts_from, layer_steps};
ghost use Rattle.split.specs.Words.{PartDone, LayerDone};

use crate::agreement::{finish_of, first_into};
use crate::by_first::ByFirst;
use crate::check::{check_node, check_place};
use crate::counting::count_in;
use crate::dividing::{divide, first_leaving, put_back};
use crate::listing::{InArcs, list_layer, no_in_arcs};
use labels::relabel::relabel;
use layers::node::Node;
use layers::refusal::Refusal;
use layers::setting::Setting;
use rules::rule::Rule;
use tallies::tally::Tally;

/// The record at place b becomes that at place a.
fn copy_record<S: Copy, V: Copy>(vs: &mut [Node<S, V>], a: usize, b: usize)
    requires a_in_bounds { a < length vs.old }
    requires b_in_bounds { b < length vs.old }
    ensures { (z : ANode S V) → vs.new ≡ slice_set vs.old b (slice_index_or vs.old a z) }
{
    vs[b] = vs[a];
}

/// Whether a layer of that many nodes is full.
fn is_full(count: usize, width: usize) -> bool
    requires { count ≤ 128 }
    ensures { result ≡ nat_le width count }
{
    count >= width
}

/// Parts the node at place a of the second of the layers at the head of `nodes`, unless its in-arcs agree or the layer is full:
/// then nothing is altered. The in-arcs are altered in the list alone.
fn part_node<R: Rule, T: Tally>(
    by: &Setting<'_, R, T>,
    nodes: &mut [Node<R::State, T::Value>],
    list: &mut InArcs,
    a: usize,
    count: usize,
) -> Result<(), Refusal>
    requires two_in_bounds { by.now.width + by.now.width < length nodes.old }
    requires width_bound { by.now.width ≤ 128 }
    requires a_lt_count { a < count }
    requires count_le_width { count ≤ by.now.width }
    requires listed { IsListed (take by.now.width nodes.old) list.old }
    ensures { let by = lent_setting by.now (R.sense by.now.rule.now) (T.sense by.now.tally.now) in
        NodeDone by a count nodes.old list.old result nodes.new list.new }
{
    let t = a as u8 + 1;
    let (us, vs) = nodes.split_at_mut(by.width);
    let Some(first) = first_into(us, list, t) else {
        return Err(Refusal::OneGroup);
    };
    let finish = finish_of(by.round, &first.label, first.door);
    let test = ByFirst { by, first, finish };
    let Some(from) = first_leaving(&test, us, list, t) else {
        return Err(Refusal::OneGroup);
    };
    if is_full(count, by.width) {
        return Err(Refusal::LayerFull);
    }
    divide(&test, us, list, from, count as u8 + 1);
    copy_record(vs, a, count);
    Ok(())
}

/// The same, in the records.
fn part_second<R: Rule, T: Tally>(
    by: &Setting<'_, R, T>,
    nodes: &mut [Node<R::State, T::Value>],
    a: usize,
    count: usize,
) -> Result<(), Refusal>
    requires two_in_bounds { by.now.width + by.now.width < length nodes.old }
    requires width_bound { by.now.width ≤ 128 }
    requires a_lt_count { a < count }
    requires count_le_width { count ≤ by.now.width }
    ensures answer { let by = lent_setting by.now (R.sense by.now.rule.now)
        (T.sense by.now.tally.now) in
        result ≡ group_check (alike by 0 (suc a) nodes.old) (nat_le by.width count) }
    ensures records { let by = lent_setting by.now (R.sense by.now.rule.now)
        (T.sense by.now.tally.now) in nodes.new ≡ next_records by 0 a count nodes.old }
{
    let mut list = no_in_arcs();
    list_layer(&nodes[..by.width], &mut list);
    let answer = part_node(by, nodes, &mut list, a, count);
    put_back(&mut nodes[..by.width], &list);
    answer
}

/// The same of the layer after that at `at`.
fn part_at<R: Rule, T: Tally>(
    by: &Setting<'_, R, T>,
    nodes: &mut [Node<R::State, T::Value>],
    at: usize,
    a: usize,
    count: usize,
) -> Result<(), Refusal>
    requires two_in_bounds { at + by.now.width + by.now.width < length nodes.old }
    requires width_bound { by.now.width ≤ 128 }
    requires a_lt_count { a < count }
    requires count_le_width { count ≤ by.now.width }
    ensures answer { let by = lent_setting by.now (R.sense by.now.rule.now)
        (T.sense by.now.tally.now) in
        result ≡ group_check (alike by at (suc a) nodes.old) (nat_le by.width count) }
    ensures records { let by = lent_setting by.now (R.sense by.now.rule.now)
        (T.sense by.now.tally.now) in nodes.new ≡ next_records by at a count nodes.old }
{
    part_second(by, nodes.split_at_mut(at).1, a, count)
}

/// Parts node `node` of the layer: the in-arcs that differ from the first go to a new last node, with the same out-arcs, and
/// all labels are worked out anew. A refusal alters nothing.
pub fn part<R: Rule, T: Tally>(
    by: &Setting<'_, R, T>,
    nodes: &mut [Node<R::State, T::Value>],
    layer: usize,
    node: usize,
) -> Result<(), Refusal>
    ensures answer { let by = lent_setting by.now (R.sense by.now.rule.now)
        (T.sense by.now.tally.now) in result ≡ part_check by layer node nodes.old }
    ensures steps { let by = lent_setting by.now (R.sense by.now.rule.now)
        (T.sense by.now.tally.now) in nodes.new ≡ part_steps by layer node nodes.old }
    ensures words { let by = lent_setting by.now (R.sense by.now.rule.now)
        (T.sense by.now.tally.now) in PartDone by nodes.old layer node result nodes.new }
{
    check_place(by.round.n, by.width, nodes.len(), layer)?;
    let at = (layer - 1) * by.width;
    let count = count_in(nodes, at + by.width, by.width);
    check_node(count, node)?;
    part_at(by, nodes, at, node - 1, count)?;
    relabel(by, nodes);
    Ok(())
}

/// Parts the nodes of the second of the layers at the head of `nodes`, as many as it has and gets. The in-arcs are altered in
/// the list alone.
fn part_listed<R: Rule, T: Tally>(
    by: &Setting<'_, R, T>,
    nodes: &mut [Node<R::State, T::Value>],
    list: &mut InArcs,
) -> bool
    requires two_in_bounds { by.now.width + by.now.width < length nodes.old }
    requires width_bound { by.now.width ≤ 128 }
    requires listed { IsListed (take by.now.width nodes.old) list.old }
    ensures records { let by = lent_setting by.now (R.sense by.now.rule.now)
        (T.sense by.now.tally.now) in
        (result, told_records by.width list.new nodes.new) ≡ parts_from by 0 by.width 0
        (node_count by.width by.width nodes.old) (told_records by.width list.old nodes.old) }
    ensures listed { IsListed (take by.now.width nodes.new) list.new }
{
    let mut count = count_in(nodes, by.width, by.width);
    for a in 0..by.width {
        if count <= a {
            return false;
        }
        match part_node(by, nodes, list, a, count) {
            Ok(()) => count += 1,
            Err(e) => match e {
                Refusal::LayerFull => return true,
                _ => {}
            },
        }
    }
    false
}

/// The same, in the records.
fn part_from<R: Rule, T: Tally>(
    by: &Setting<'_, R, T>,
    nodes: &mut [Node<R::State, T::Value>],
) -> bool
    requires two_in_bounds { by.now.width + by.now.width < length nodes.old }
    requires width_bound { by.now.width ≤ 128 }
    ensures { let by = lent_setting by.now (R.sense by.now.rule.now) (T.sense by.now.tally.now) in
        (result, nodes.new) ≡ parts_from by 0 by.width 0
        (node_count by.width by.width nodes.old) nodes.old }
{
    let mut list = no_in_arcs();
    list_layer(&nodes[..by.width], &mut list);
    let full = part_listed(by, nodes, &mut list);
    put_back(&mut nodes[..by.width], &list);
    full
}

/// Parts each node of the layer whose in-arcs do not agree, one after another, the new ones too, by their arcs alone: no label
/// is worked out anew. Yes if one is left since the layer is full. No, and nothing altered, for a list that has no room for the
/// round's diagram, and for a layer that is not 1 to n - 1.
pub fn part_layer<R: Rule, T: Tally>(
    by: &Setting<'_, R, T>,
    nodes: &mut [Node<R::State, T::Value>],
    layer: usize,
) -> bool
    ensures steps { let by = lent_setting by.now (R.sense by.now.rule.now)
        (T.sense by.now.tally.now) in (result, nodes.new) ≡ layer_steps by layer nodes.old }
    ensures words { let by = lent_setting by.now (R.sense by.now.rule.now)
        (T.sense by.now.tally.now) in LayerDone by nodes.old layer result nodes.new }
{
    match check_place(by.round.n, by.width, nodes.len(), layer) {
        Err(_) => false,
        Ok(()) => {
            let at = (layer - 1) * by.width;
            part_from(by, nodes.split_at_mut(at).1)
        }
    }
}
