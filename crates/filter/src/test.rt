//! Which arcs a filter takes out.
ghost use Rattle.std.specs.Prelude.{◌≡◌, ℕ, ◌<◌, ◌≤◌, Bool, Some, Option};
ghost use Rattle.layers.specs.Labels.{leg};
ghost use Rattle.layers.specs.declared.node.Down.{Down as ADown};
ghost use Rattle.layers.specs.declared.node.Up.{Up as AUp};
ghost use Rattle.round.specs.declared.table.Round.{Round as ARound};

use layers::node::{Down, Up};
use round::table::Round;

/// An arc, apart from its ends' labels: the number of its layer, how many layers of arcs there are
/// from there to the end, its door, and the leg to that door.
#[derive(Drop)]
pub(crate) struct Arc<'a> {
    pub(crate) round: &'a Round,
    pub(crate) layer: usize,
    pub(crate) left: usize,
    pub(crate) door: usize,
    pub(crate) leg: u32,
}

/// A filter is an implementation of this: the passes over the records are the same for all.
pub(crate) trait Test {
    type State: Copy;

    type Value: Copy;

    // which arcs go: told from the round, the layer, the layers of arcs from it to the end, the
    // door, and the labels of source and target
    ghost goes: { Self → ARound → ℕ → ℕ → ℕ → Option (ADown Self.State Self.Value) → Option AUp
        → Bool };

    // what the label of a source is for the test to be asked
    ghost fits: { Self → ADown Self.State Self.Value → Type 0 };

    /// Whether the arc goes, from a node with the label u to one with the sets v.
    fn takes_out(&self, arc: &Arc<'_>, u: &Down<Self::State, Self::Value>, v: &Up) -> bool
        requires layer_bound { arc.now.layer ≤ 16 }
        requires left_bound { arc.now.left ≤ 16 }
        requires door_bound { arc.now.door < 17 }
        requires is_leg { arc.now.leg ≡ leg arc.now.round.now u.now.lasts arc.now.door }
        requires fits { fits self.now u.now }
        ensures { let a = arc.now in
            result ≡ goes self.now a.round.now a.layer a.left a.door (Some u.now) (Some v.now) };
}
