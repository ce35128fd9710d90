//! Whether doors are read along a path.
ghost use Rattle.std.specs.Prelude.{◌≡◌, ◌≤◌, false, length, if◌then◌else◌};
ghost use Rattle.layers.specs.Calls.{holds};
ghost use Rattle.layers.specs.Net.{node, target};
ghost use Rattle.layers.specs.Records.{arcs_in};
ghost use Rattle.seek.specs.Rows.{fits};

use crate::layer::layer;
use crate::must::fits;
use layers::node::Node;

/// Where the arc by a door leads from the node at a place of the layer us: the number of its target, 0 for no arc.
fn target_by<S: Copy, V: Copy>(us: &[Node<S, V>], n: usize, place: usize, door: usize) -> usize
    requires { n ≤ 16 }
    ensures { result ≡ target (node (arcs_in n us.now) place) door }
{
    if !(1..=n).contains(&door) {
        return 0;
    }
    if place < us.len() {
        usize::from(us[place].arcs.to[door - 1])
    } else {
        0
    }
}

/// Yes if the doors, in this order, are read along a path of the diagram of n doors. No for a list too short for the diagram, a
/// width out of 1 to 128, and more than 16 doors.
pub fn holds<S: Copy, V: Copy>(
    nodes: &[Node<S, V>],
    n: usize,
    width: usize,
    doors: &[usize],
) -> bool
    ensures { result ≡
        (if fits n width (length nodes.now) then holds n width doors.now nodes.now else false) }
{
    if !fits(n, width, nodes.len()) {
        return false;
    }
    if doors.len() != n {
        return false;
    }
    let mut place = 0;
    for (i, &door) in doors.iter().enumerate() {
        let t = target_by(layer(nodes, n, width, i), n, place, door);
        if t == 0 {
            return false;
        }
        place = t - 1;
    }
    place == 0
}
