//! All labels of a diagram's records.
ghost use Rattle.std.specs.Prelude.{◌≡◌, ◌+◌, ◌*◌, ◌≤◌, ◌&&◌, true, nat_le, map, length, take, if◌then◌else◌};
ghost use Rattle.layers.specs.Net.{Net};
ghost use Rattle.layers.specs.Lawful.{IsLawful};
ghost use Rattle.layers.specs.Records.{arcs_read, laid_arcs};
ghost use Rattle.layers.specs.Settings.{lent_setting};
ghost use Rattle.layers.specs.Calls.{records_with};
ghost use Rattle.labels.specs.Passes.{fits, unlabelled, relabelled_used, relabelled, below_steps, HasDownsBefore, HasPlaces};

use crate::blank::blank_node;
use crate::down::{label_after, label_down};
use crate::room::has_room;
use crate::up::label_up;
use layers::node::Node;
use layers::setting::Setting;
use round::table::Round;
use rules::rule::Rule;
use tallies::tally::Tally;

/// All labels of these records are blank.
fn unlabel<R: Rule, T: Tally>(rule: &R, tally: &T, vs: &mut [Node<R::State, T::Value>])
    ensures { vs.new ≡ map (unlabelled (R.sense rule.now) (T.sense tally.now)) vs.old }
{
    let blank = blank_node(rule, tally).label;
    for v in vs.iter_mut() {
        v.label = blank;
    }
}

/// Works out all labels anew from the arcs: of arcs that a diagram may have, every label is as the definitions say. A list too
/// short for the round and the width, and a width out of 1 to 128, are left alone.
pub fn relabel<R: Rule, T: Tally>(by: &Setting<'_, R, T>, nodes: &mut [Node<R::State, T::Value>])
    ensures passes { let by = lent_setting by.now (R.sense by.now.rule.now)
        (T.sense by.now.tally.now) in
        nodes.new ≡ (if fits by.round.n by.width (length nodes.old) then relabelled by nodes.old
        else nodes.old) }
    ensures labelled { let by = lent_setting by.now (R.sense by.now.rule.now)
        (T.sense by.now.tally.now) in
        (Ls : Net) → fits by.round.n by.width (length nodes.old) ≡ true
        → IsLawful by.round.n by.width Ls
        → arcs_read (take (by.round.n * by.width + 1) nodes.old) ≡ laid_arcs by.width Ls
        → nodes.new ≡ records_with by nodes.old Ls }
{
    if !has_room(by.round, by.width, nodes.len()) {
        return;
    }
    unlabel(by.rule, by.tally, &mut nodes[..by.round.n * by.width]);
    relabel_used(by, nodes);
}

/// The same where the places that are not in use are known, and have blank labels: it goes over no other than those in use.
pub fn relabel_used<R: Rule, T: Tally>(
    by: &Setting<'_, R, T>,
    nodes: &mut [Node<R::State, T::Value>],
)
    ensures passes { let by = lent_setting by.now (R.sense by.now.rule.now)
        (T.sense by.now.tally.now) in
        nodes.new ≡ (if fits by.round.n by.width (length nodes.old)
        then relabelled_used by nodes.old else nodes.old) }
    ensures labelled { let by = lent_setting by.now (R.sense by.now.rule.now)
        (T.sense by.now.tally.now) in
        (Ls : Net) → fits by.round.n by.width (length nodes.old) ≡ true
        → IsLawful by.round.n by.width Ls
        → arcs_read (take (by.round.n * by.width + 1) nodes.old) ≡ laid_arcs by.width Ls
        → HasPlaces by Ls nodes.old
        → nodes.new ≡ records_with by nodes.old Ls }
{
    if has_room(by.round, by.width, nodes.len()) {
        label_down(by, nodes);
        label_up(by.round, nodes, by.width);
    }
}

/// Whether a list of `len` records has room for a diagram, and the layer is 1 to n.
fn has_layer(round: &Round, width: usize, len: usize, layer: usize) -> bool
    ensures { let n = round.now.n in
        result ≡ (fits n width len && (nat_le 1 layer && nat_le layer n)) }
{
    has_room(round, width, len) && layer >= 1 && layer <= round.n
}

/// Works out anew the downward labels of the layer and of all after it, from those that stand in the layer before it, and then
/// all upward labels: of arcs that a diagram may have, every label is as the definitions say if the labels before the layer
/// are, and the places that are not in use are known, and have blank labels. Left alone are a list too short for the round and
/// the width, a width out of 1 to 128, and a layer that is not 1 to n.
#[tactic(auto, using(std::proofs::lemmas::Bool::Decides::nat_tests, crate::proofs::Rests::layers_in, crate::proofs::Laying::below_laid), unfolding(crate::specs::Passes::below_steps))]
pub fn relabel_below<R: Rule, T: Tally>(
    by: &Setting<'_, R, T>,
    nodes: &mut [Node<R::State, T::Value>],
    layer: usize,
)
    ensures passes { let by = lent_setting by.now (R.sense by.now.rule.now)
        (T.sense by.now.tally.now) in
        nodes.new ≡ below_steps by layer nodes.old }
    ensures labelled { let by = lent_setting by.now (R.sense by.now.rule.now)
        (T.sense by.now.tally.now) in
        (Ls : Net) → fits by.round.n by.width (length nodes.old) ≡ true
        → 1 ≤ layer → layer ≤ by.round.n
        → IsLawful by.round.n by.width Ls
        → arcs_read (take (by.round.n * by.width + 1) nodes.old) ≡ laid_arcs by.width Ls
        → HasDownsBefore by layer Ls nodes.old → HasPlaces by Ls nodes.old
        → nodes.new ≡ records_with by nodes.old Ls }
{
    if has_layer(by.round, by.width, nodes.len(), layer) {
        let (_, from) = nodes.split_at_mut((layer - 1) * by.width);
        label_after(by, from, by.round.n - layer);
        label_up(by.round, nodes, by.width);
    }
}
