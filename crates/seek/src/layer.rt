//! The nodes of a layer.
ghost use Rattle.std.specs.Prelude.{◌≡◌, ◌&&◌, [], length, nat_le, if◌then◌else◌};
ghost use Rattle.layers.specs.Calls.{layer};
ghost use Rattle.layers.specs.Records.{nodes_in};
ghost use Rattle.seek.specs.Rows.{fits};

use crate::must::fits;
use crate::row::places_of;
use layers::node::Node;
use tidying::count::count_nodes;

/// Those of a layer's places that are in use: they stand first.
fn in_use<S: Copy, V: Copy>(places: &[Node<S, V>]) -> &[Node<S, V>]
    ensures { result.now ≡ nodes_in places.now }
{
    &places[..count_nodes(places)]
}

/// The records of the nodes of layer i, by number, in the diagram of n doors. No record for a list too short for the diagram, a width
/// out of 1 to 128, more than 16 doors, and a layer above n.
pub fn layer<S: Copy, V: Copy>(
    nodes: &[Node<S, V>],
    n: usize,
    width: usize,
    i: usize,
) -> &[Node<S, V>]
    ensures { result.now ≡ (if fits n width (length nodes.now) && nat_le i n
        then layer n width i nodes.now else []) }
{
    if !fits(n, width, nodes.len()) {
        return &nodes[..0];
    }
    if i < n {
        in_use(places_of(nodes, width, i))
    } else if i == n {
        in_use(&nodes[n * width..n * width + 1])
    } else {
        &nodes[..0]
    }
}
