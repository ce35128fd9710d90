//! A place that is not in use.
ghost use Rattle.std.specs.Prelude.{◌≡◌};
ghost use Rattle.labels.specs.Passes.{blank_node};

use layers::node::{Arcs, Down, Label, Node, Up};
use rules::rule::Rule;
use tallies::tally::Tally;

/// No arc, no door in any set, finish 0, and the starts of rule and tally.
pub fn blank_node<R: Rule, T: Tally>(rule: &R, tally: &T) -> Node<R::State, T::Value>
    ensures { result ≡ blank_node (R.sense rule.now) (T.sense tally.now) }
{
    let state = rule.start();
    let value = tally.start();
    Node {
        arcs: Arcs { to: [0; 16] },
        label: Label {
            down: Down {
                all: 0,
                some: 0,
                finish: 0,
                lasts: 0,
                state,
                value,
            },
            up: Up {
                allup: 0,
                someup: 0,
                late: -40_000,
            },
        },
    }
}
