//! Whether a diagram is settled.
ghost use Rattle.std.specs.Prelude.{◌≡◌, length};
ghost use Rattle.tallies.specs.Tallies.{TallySense};
ghost use Rattle.layers.specs.Settings.{setting};
ghost use Rattle.refine.specs.Steps.{settled_steps, SettledDone};

use filter::quiet::quiet;
use layers::node::Node;
use round::table::Round;
use rules::rule::Rule;
use split::agreeing::agreed;

/// Yes if the in-arcs of each node of the layers 1 to n - 1 agree and a sweep would take out nothing. A tally has no say in it.
/// No for a list that has no room for the diagram.
pub fn settled<R: Rule, V: Copy>(
    round: &Round,
    rule: &R,
    nodes: &[Node<R::State, V>],
    width: usize,
) -> bool
    ensures steps { (t : TallySense V)
        → result ≡ settled_steps (setting round.now (R.sense rule.now) t width) nodes.now }
    ensures words { (t : TallySense V)
        → SettledDone (setting round.now (R.sense rule.now) t width) nodes.now result }
{
    agreed(round, rule, nodes, width) && quiet(round, rule, nodes, width)
}
