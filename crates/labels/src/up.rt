//! The pass up: each node gathers from its targets, layer by layer from the end.
ghost use Rattle.std.specs.Prelude.{◌≡◌, ℕ, None, ◌+◌, ◌*◌, ◌<◌, ◌≤◌, length, fold, slice_index};
ghost use Rattle.layers.specs.declared.node.Node.{Node as ANode};
ghost use Rattle.layers.specs.Labels.{leg};
ghost use Rattle.labels.specs.Passes.{held_late, climb_held, up_by, ups_of, gathered_up, ended, renewed, risen, risen_from, pass_up, taken_up};

use crate::leg::legs;
use crate::outs::list_doors;
use layers::node::{Node, Up};
use round::table::Round;

/// Where no arc leads on, and in a place that is not in use.
const NONE: Up = Up {
    allup: 0,
    someup: 0,
    late: -40_000,
};

/// On the end.
const END: Up = Up {
    allup: 0,
    someup: 0,
    late: 9_999,
};

/// The last minute to leave a node over an arc by door j with this leg, where `late` is that to leave its target.
fn late_over(round: &Round, leg: u16, late: i32, j: usize) -> i32
    requires { j < 17 }
    ensures { result ≡ held_late round.now leg late j }
{
    let door = &round.doors[j];
    let by = i32::from(door.closes).min(late);
    by.saturating_sub(i32::from(door.work) + i32::from(leg))
}

/// What the arc by door j with this leg brings from a target with these.
fn climb_from(round: &Round, leg: u16, up: &Up, j: usize) -> Up
    requires { j < 17 }
    ensures { result ≡ climb_held round.now leg up.now j }
{
    let bit = 1u32 << j;
    let late = late_over(round, leg, up.late, j);
    Up {
        allup: up.allup | bit,
        someup: up.someup | bit,
        late,
    }
}

/// What two arcs have together.
fn take_up(got: Option<Up>, x: Up) -> Option<Up>
    ensures { result ≡ taken_up got x }
{
    match got {
        None => Some(x),
        Some(a) => Some(Up {
            allup: a.allup & x.allup,
            someup: a.someup | x.someup,
            late: a.late.max(x.late),
        }),
    }
}

/// Over the arc of u by the door k + 1, if there is one; `legs` are those of u.
fn climb_by<S: Copy, V: Copy>(
    round: &Round,
    legs: &[u16; 16],
    vs: &[Node<S, V>],
    u: &Node<S, V>,
    k: usize,
) -> Option<Up>
    requires k_bound { k < 16 }
    requires is_leg { slice_index legs.now k ≡ leg round.now u.now.label.down.lasts (k + 1) }
    ensures { result ≡ fold taken_up None (up_by round.now vs.now u.now k) }
{
    let t = u.arcs.to[k] as usize;
    if t == 0 || t > vs.len() {
        return None;
    }
    Some(climb_from(round, legs[k], &vs[t - 1].label.up, k + 1))
}

/// What u gathers from the layer vs after it; a place that is not in use gathers nothing.
#[tactic(auto, unfolding(crate::specs::Passes::ups_of, crate::specs::Passes::gathered_up))]
fn climb_all<S: Copy, V: Copy>(round: &Round, vs: &[Node<S, V>], u: &Node<S, V>) -> Up
    ensures { result ≡ gathered_up (ups_of round.now vs.now u.now) }
{
    if u.label.down.lasts == 0 {
        return NONE;
    }
    let legs = legs(round, u.label.down.lasts);
    let mut got: Option<Up> = None;
    let mut room = [0; 16];
    let many = list_doors(&u.arcs.to, &mut room);
    let doors = &room[..many];
    for k in doors {
        if let Some(x) = climb_by(round, &legs, vs, u, usize::from(*k)) {
            got = take_up(got, x);
        }
    }
    got.unwrap_or(NONE)
}

/// The nodes of the layer us, which stand first, gather from the layer vs after it.
fn rise_layer<S: Copy, V: Copy>(round: &Round, us: &mut [Node<S, V>], vs: &[Node<S, V>])
    ensures { us.new ≡ renewed (risen round.now vs.now) us.old }
{
    for u in us.iter_mut() {
        if u.label.down.lasts == 0 {
            break;
        }
        let up = climb_all(round, vs, u);
        u.label.up = up;
    }
}

/// The upward label of the end; an empty diagram has none.
fn end_up<S: Copy, V: Copy>(end: &Node<S, V>) -> Up
    ensures { result ≡ (ended end.now).label.up }
{
    if end.label.down.lasts == 0 { NONE } else { END }
}

/// A layer and all after it, with `later` layers between it and the end.
fn rise_from<S: Copy, V: Copy>(round: &Round, nodes: &mut [Node<S, V>], width: usize, later: usize)
    requires { later * width + width < length nodes.old }
    ensures { nodes.new ≡ risen_from round.now width later nodes.old }
{
    let (us, rest) = nodes.split_at_mut(width);
    if later == 0 {
        let up = end_up(&rest[0]);
        rest[0].label.up = up;
        rise_layer(round, us, &rest[..1]);
    } else {
        rise_from(round, rest, width, later - 1);
        rise_layer(round, us, &rest[..width]);
    }
}

/// Works out anew all that is worked out from the end.
#[tactic(auto, unfolding(crate::specs::Passes::pass_up))]
pub(crate) fn label_up<S: Copy, V: Copy>(round: &Round, nodes: &mut [Node<S, V>], width: usize)
    requires { round.now.n * width < length nodes.old }
    ensures { nodes.new ≡ pass_up round.now width nodes.old }
{
    rise_from(round, nodes, width, round.n - 1);
}
