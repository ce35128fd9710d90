//! The pass down: each arrival is added to its target, sources by number, then doors.
ghost use Rattle.std.specs.Prelude.{◌≡◌, ◌≢◌, ℕ, ◌+◌, ◌-◌, ◌*◌, ◌<◌, ◌≤◌, length, slice_index};
ghost use Rattle.round.specs.Clock.{latest_finish};
ghost use Rattle.layers.specs.declared.node.Node.{Node as ANode};
ghost use Rattle.layers.specs.Labels.{leg, arrival_over, merge, first_label, blank_label};
ghost use Rattle.layers.specs.Settings.{lent_setting};
ghost use Rattle.labels.specs.Passes.{cleared, renewed, begun, is_source, crossed_all, next_renewed, end_renewed, renewed_after, landed, crossed, spread};

use crate::leg::legs;
use crate::outs::list_doors;
use layers::node::{Down, Node};
use layers::setting::Setting;
use round::clock::LATEST_DEPARTURE;
use rules::rule::Rule;
use tallies::tally::Tally;

/// What the arc by door j brings from a node with the label u, `drive` minutes away.
pub(crate) fn arrive<R: Rule, T: Tally>(
    by: &Setting<'_, R, T>,
    u: &Down<R::State, T::Value>,
    j: usize,
    drive: u32,
) -> Down<R::State, T::Value>
    requires j_bound { j < 17 }
    requires is_leg { drive ≡ leg by.now.round.now u.now.lasts j }
    requires finish_bound { u.now.finish ≤ latest_finish 15 }
    ensures { let by = lent_setting by.now (R.sense by.now.rule.now) (T.sense by.now.tally.now) in
        result ≡ arrival_over by u.now j }
{
    let minute = by.round.finish(u.finish, drive, j);
    let finish = minute as u32;
    let bit = 1u32 << j;
    Down {
        all: u.all | bit,
        some: u.some | bit,
        finish,
        lasts: bit,
        state: by.rule.step(u.state, j),
        value: by.tally.step(u.value, j, drive, finish),
    }
}

/// What two arrivals have together.
fn merge<R: Rule, T: Tally>(
    rule: &R,
    tally: &T,
    a: &Down<R::State, T::Value>,
    b: &Down<R::State, T::Value>,
) -> Down<R::State, T::Value>
    ensures { result ≡ merge (R.sense rule.now) (T.sense tally.now) a.now b.now }
{
    Down {
        all: a.all & b.all,
        some: a.some | b.some,
        finish: a.finish.min(b.finish),
        lasts: a.lasts | b.lasts,
        state: rule.cover(a.state, b.state),
        value: tally.lesser(a.value, b.value),
    }
}

/// The node at place b takes in the arrival x; it has gathered nothing yet while it has no last place.
#[tactic(auto, unfolding(crate::specs::Passes::landed, crate::specs::Passes::taken))]
fn land<R: Rule, T: Tally>(
    rule: &R,
    tally: &T,
    vs: &mut [Node<R::State, T::Value>],
    b: usize,
    x: &Down<R::State, T::Value>,
)
    requires { b < length vs.old }
    ensures { vs.new ≡ landed (R.sense rule.now) (T.sense tally.now) vs.old b x.now }
{
    let got = vs[b].label.down;
    let down = if got.lasts == 0 {
        *x
    } else {
        merge(rule, tally, &got, x)
    };
    vs[b].label.down = down;
}

/// Over the arc of u by the door k + 1, if there is one; `legs` are those of u.
#[tactic(auto, unfolding(crate::specs::Passes::crossed, crate::specs::Passes::hit, crate::specs::Passes::landed))]
fn cross<R: Rule, T: Tally>(
    by: &Setting<'_, R, T>,
    u: &Node<R::State, T::Value>,
    legs: &[u16; 16],
    vs: &mut [Node<R::State, T::Value>],
    k: usize,
)
    requires k_bound { k < 16 }
    requires is_leg { slice_index legs.now k ≡ leg by.now.round.now u.now.label.down.lasts (k + 1) }
    requires finish_bound { u.now.label.down.finish ≤ latest_finish 15 }
    ensures { let by = lent_setting by.now (R.sense by.now.rule.now) (T.sense by.now.tally.now) in
        vs.new ≡ crossed by u.now vs.old k }
{
    let t = u.arcs.to[k] as usize;
    if t == 0 || t > vs.len() {
        return;
    }
    let x = arrive(by, &u.label.down, k + 1, u32::from(legs[k]));
    land(by.rule, by.tally, vs, t - 1, &x);
}

/// Over all arcs of the node u.
fn spread_node<R: Rule, T: Tally>(
    by: &Setting<'_, R, T>,
    u: &Node<R::State, T::Value>,
    vs: &mut [Node<R::State, T::Value>],
)
    requires in_use { u.now.label.down.lasts ≢ 0 }
    requires finish_bound { u.now.label.down.finish ≤ latest_finish 15 }
    ensures { let by = lent_setting by.now (R.sense by.now.rule.now) (T.sense by.now.tally.now) in
        vs.new ≡ spread by vs.old u.now }
{
    let legs = legs(by.round, u.label.down.lasts);
    let mut room = [0; 16];
    let many = list_doors(&u.arcs.to, &mut room);
    let doors = &room[..many];
    for k in doors {
        cross(by, u, &legs, vs, usize::from(*k));
    }
}

/// The label of a place that is not in use.
fn unreached<R: Rule, T: Tally>(rule: &R, tally: &T) -> Down<R::State, T::Value>
    ensures { result ≡ blank_label (R.sense rule.now) (T.sense tally.now) }
{
    Down {
        all: 0,
        some: 0,
        finish: 0,
        lasts: 0,
        state: rule.start(),
        value: tally.start(),
    }
}

/// The nodes of the layer, which stand first, have no label any more.
fn clear<R: Rule, T: Tally>(rule: &R, tally: &T, vs: &mut [Node<R::State, T::Value>])
    ensures { vs.new ≡ renewed (cleared (R.sense rule.now) (T.sense tally.now)) vs.old }
{
    let blank = unreached(rule, tally);
    for v in vs.iter_mut() {
        if v.label.down.lasts == 0 {
            break;
        }
        v.label.down = blank;
    }
}

/// Whether the record is in use, with a finish that the clock allows before the end.
fn is_source<S: Copy, V: Copy>(u: &Node<S, V>) -> bool
    ensures { result ≡ is_source u.now }
{
    u.label.down.lasts != 0 && u.label.down.finish <= LATEST_DEPARTURE
}

/// Over all arcs of the nodes of the layer us, which stand first.
fn spread_layer<R: Rule, T: Tally>(
    by: &Setting<'_, R, T>,
    us: &[Node<R::State, T::Value>],
    vs: &mut [Node<R::State, T::Value>],
)
    ensures { let by = lent_setting by.now (R.sense by.now.rule.now) (T.sense by.now.tally.now) in
        vs.new ≡ crossed_all by us.now vs.old }
{
    for u in us {
        if !is_source(u) {
            break;
        }
        spread_node(by, u, vs);
    }
}

/// Works out anew the labels of the nodes of the layer vs, from those of the layer us before it.
#[tactic(auto, unfolding(crate::specs::Passes::next_renewed))]
fn relabel_layer<R: Rule, T: Tally>(
    by: &Setting<'_, R, T>,
    us: &[Node<R::State, T::Value>],
    vs: &mut [Node<R::State, T::Value>],
)
    ensures { let by = lent_setting by.now (R.sense by.now.rule.now) (T.sense by.now.tally.now) in
        vs.new ≡ next_renewed by us.now vs.old }
{
    clear(by.rule, by.tally, vs);
    spread_layer(by, us, vs);
}

/// Works out anew the label of the end, which stands first in vs, from the nodes of the layer us before it.
fn relabel_end<R: Rule, T: Tally>(
    by: &Setting<'_, R, T>,
    us: &[Node<R::State, T::Value>],
    vs: &mut [Node<R::State, T::Value>],
)
    requires { 0 < length vs.old }
    ensures { let by = lent_setting by.now (R.sense by.now.rule.now) (T.sense by.now.tally.now) in
        vs.new ≡ end_renewed by us.now vs.old }
{
    vs[0].label.down = unreached(by.rule, by.tally);
    spread_layer(by, us, &mut vs[..1]);
}

/// The label of the first node.
fn at_first<R: Rule, T: Tally>(rule: &R, tally: &T) -> Down<R::State, T::Value>
    ensures { result ≡ first_label (R.sense rule.now) (T.sense tally.now) }
{
    Down {
        all: 0,
        some: 0,
        finish: 0,
        lasts: 1,
        state: rule.start(),
        value: tally.start(),
    }
}

/// Works out anew the labels after a layer, which has its own, with `later` layers between it and the end.
#[tactic(auto, unfolding(crate::specs::Passes::renewed_after))]
pub(crate) fn label_after<R: Rule, T: Tally>(
    by: &Setting<'_, R, T>,
    nodes: &mut [Node<R::State, T::Value>],
    later: usize,
)
    requires { later * by.now.width + by.now.width < length nodes.old }
    ensures { let by = lent_setting by.now (R.sense by.now.rule.now) (T.sense by.now.tally.now) in
        nodes.new ≡ renewed_after by later nodes.old }
{
    let (us, rest) = nodes.split_at_mut(by.width);
    if later == 0 {
        relabel_end(by, us, rest);
    } else {
        relabel_layer(by, us, &mut rest[..by.width]);
        label_after(by, rest, later - 1);
    }
}

/// Works out anew all that is worked out from the first node.
pub(crate) fn label_down<R: Rule, T: Tally>(
    by: &Setting<'_, R, T>,
    nodes: &mut [Node<R::State, T::Value>],
)
    requires { by.now.round.now.n * by.now.width < length nodes.old }
    ensures { let by = lent_setting by.now (R.sense by.now.rule.now) (T.sense by.now.tally.now) in
        nodes.new ≡ renewed_after by (by.round.n - 1) (begun by.rule by.tally nodes.old) }
{
    nodes[0].label.down = at_first(by.rule, by.tally);
    label_after(by, nodes, by.round.n - 1);
}
