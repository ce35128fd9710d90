//! Lays the arcs of a diagram that is just opened.
ghost use Rattle.std.specs.Prelude.{◌≡◌, ◌+◌, ◌*◌, ◌<◌, ◌≤◌, length, map};
ghost use Rattle.diagram.specs.Opening.{every_door, no_door, with_arcs, first_arced, arced};

use layers::node::{Arcs, Node};

const NONE: Arcs = Arcs { to: [0; 16] };

/// An arc for each of n doors, to node 1.
fn every_door(n: usize) -> Arcs
    requires { n ≤ 16 }
    ensures { result ≡ every_door n }
{
    let mut to = [0u8; 16];
    for k in 0..n {
        to[k] = 1;
    }
    Arcs { to }
}

/// Takes all arcs.
fn clear_arcs<S: Copy, V: Copy>(us: &mut [Node<S, V>])
    ensures { us.new ≡ map (with_arcs no_door) us.old }
{
    for u in us.iter_mut() {
        u.arcs = NONE;
    }
}

/// The first node of a layer has the arcs, and no other place has any.
fn lay_first<S: Copy, V: Copy>(us: &mut [Node<S, V>], arcs: Arcs)
    requires { 0 < length us.old }
    ensures { us.new ≡ first_arced arcs us.old }
{
    clear_arcs(us);
    us[0].arcs = arcs;
}

/// So `count` layers, and the end, which has no arcs.
fn lay_layers<S: Copy, V: Copy>(nodes: &mut [Node<S, V>], arcs: Arcs, width: usize, count: usize)
    requires one_le_width { 1 ≤ width }
    requires records_in_bounds { count * width < length nodes.old }
    ensures { nodes.new ≡ arced arcs width count nodes.old }
{
    if count == 0 {
        lay_first(&mut nodes[..1], NONE);
    } else {
        let (us, rest) = nodes.split_at_mut(width);
        lay_first(us, arcs);
        lay_layers(rest, arcs, width, count - 1);
    }
}

/// The arcs of a whole diagram; labels and later places stay.
pub(crate) fn lay_arcs<S: Copy, V: Copy>(nodes: &mut [Node<S, V>], n: usize, width: usize)
    requires n_bound { n ≤ 16 }
    requires one_le_width { 1 ≤ width }
    requires width_in_bounds { n * width + 1 ≤ length nodes.old }
    ensures { nodes.new ≡ arced (every_door n) width n nodes.old }
{
    lay_layers(nodes, every_door(n), width, n);
}
