//! How many nodes of a layer are in use.
ghost use Rattle.std.specs.Prelude.{◌≡◌, ◌+◌, ◌≤◌, length};
ghost use Rattle.layers.specs.Records.{nodes_in};
ghost use Rattle.split.specs.Steps.{node_count};

use layers::node::Node;

/// The records in use, which stand first.
fn count_nodes<S: Copy, V: Copy>(us: &[Node<S, V>]) -> usize
    ensures { result ≡ length (nodes_in us.now) }
{
    us.iter().take_while(|u| u.label.down.lasts != 0).count()
}

/// The same of the w records at `at`.
pub(crate) fn count_in<S: Copy, V: Copy>(nodes: &[Node<S, V>], at: usize, w: usize) -> usize
    requires { at + w ≤ length nodes.now }
    ensures count { result ≡ node_count at w nodes.now }
    ensures most { result ≤ w }
{
    let end = at + w;
    count_nodes(&nodes[at..end])
}
