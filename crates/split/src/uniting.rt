//! One node in place of two.
ghost use Rattle.std.specs.Prelude.{◌≡◌, ◌+◌, ◌-◌, ◌<◌, ◌≤◌, length};
ghost use Rattle.layers.specs.Join.{clash};
ghost use Rattle.layers.specs.Targets.{targets};
ghost use Rattle.split.specs.Joined.{joined_node, joined_layer, joined_second};

use crate::moving::{move_layer, take_out};
use layers::node::{Arcs, Node};

/// Whether both nodes have an arc by one door, to different nodes.
pub(crate) fn clashes<S: Copy, V: Copy>(x: &Node<S, V>, y: &Node<S, V>) -> bool
    ensures { result ≡ clash (targets x.now) (targets y.now) }
{
    x.arcs
        .to
        .iter()
        .zip(y.arcs.to.iter())
        .any(|(s, t)| *s != 0 && *t != 0 && *s != *t)
}

/// A node with the out-arcs of both.
fn both<S: Copy, V: Copy>(x: &Node<S, V>, y: &Node<S, V>) -> Node<S, V>
    ensures { result ≡ joined_node x.now y.now }
{
    let mut to = [0u8; 16];
    for k in 0..16 {
        to[k] = if x.arcs.to[k] == 0 {
            y.arcs.to[k]
        } else {
            x.arcs.to[k]
        };
    }
    Node {
        arcs: Arcs { to },
        label: x.label,
    }
}

/// The nodes at the places lo and hi of a layer.
#[tactic(auto, using(std::proofs::lemmas::List::get_or_read), unfolding(crate::specs::Joined::joined_layer))]
fn unite_layer<S: Copy, V: Copy>(us: &mut [Node<S, V>], lo: usize, hi: usize, blank: &Node<S, V>)
    requires lo_in_bounds { lo < length us.old }
    requires hi_in_bounds { hi < length us.old }
    ensures { us.new ≡ joined_layer lo hi us.old blank.now }
{
    let all: &[Node<S, V>] = us;
    let x = all[lo];
    let y = all[hi];
    us[lo] = both(&x, &y);
    take_out(us, hi, blank);
}

/// Joins the nodes lo and hi of the second of the layers of w records: their in-arcs are those of the first.
pub(crate) fn unite<S: Copy, V: Copy>(
    nodes: &mut [Node<S, V>],
    w: usize,
    lo: u8,
    hi: u8,
    blank: &Node<S, V>,
)
    requires w_in_bounds { w + w < length nodes.old }
    requires one_le_lo { 1 ≤ lo }
    requires lo_lt_hi { lo < hi }
    requires hi_le_w { hi ≤ w }
    ensures { nodes.new ≡ joined_second w (lo - 1) (hi - 1) nodes.old blank.now }
{
    let (us, rest) = nodes.split_at_mut(w);
    move_layer(us, lo, hi);
    unite_layer(&mut rest[..w], lo as usize - 1, hi as usize - 1, blank);
}
