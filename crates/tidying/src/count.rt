//! Counting arcs.
ghost use Rattle.std.specs.Prelude.{◌≡◌, ◌*◌, ◌≤◌, length, take, if◌then◌else◌};
ghost use Rattle.labels.specs.Passes.{fits};
ghost use Rattle.layers.specs.Records.{nodes_in};
ghost use Rattle.tidying.specs.Counted.{arcs_of, arcs_within};

use labels::room::has_room;
use layers::node::Node;
use round::table::Round;

/// How many arcs leave a node.
pub fn count_of<S: Copy, V: Copy>(x: &Node<S, V>) -> usize
    ensures many { result ≡ arcs_of x.now }
    ensures few { result ≤ 16 }
    ensures sixteen { length x.now.arcs.to ≡ 16 }
{
    let to: &[u8] = &x.arcs.to;
    let mut many = 0;
    for k in 0..16 {
        many += usize::from(to[k] != 0);
    }
    many
}

/// How many nodes a layer has: its places in use, which stand first.
pub fn count_nodes<S: Copy, V: Copy>(us: &[Node<S, V>]) -> usize
    ensures many { result ≡ length (nodes_in us.now) }
    ensures first { take result us.now ≡ nodes_in us.now }
    ensures within { result ≤ length us.now }
{
    us.iter().take_while(|u| u.label.down.lasts != 0).count()
}

/// How many arcs leave all these nodes: no diagram has more than 2,049.
fn count_all<S: Copy, V: Copy>(nodes: &[Node<S, V>]) -> usize
    requires { length nodes.now ≤ 2049 }
    ensures { result ≡ arcs_within nodes.now }
{
    let mut n = 0;
    for x in nodes {
        n += count_of(x);
    }
    n
}

/// How many arcs there are in a diagram of the round's doors; 0 in a list that has no room for it.
pub fn count_arcs<S: Copy, V: Copy>(round: &Round, nodes: &[Node<S, V>], width: usize) -> usize
    ensures { result ≡ (if fits round.now.n width (length nodes.now) then arcs_within
        (take (round.now.n * width) nodes.now) else 0) }
{
    if !has_room(round, width, nodes.len()) {
        return 0;
    }
    count_all(&nodes[..round.n * width])
}
