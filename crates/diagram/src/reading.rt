//! The reading form of a diagram: it is asked and read, and no call alters it.
ghost use Rattle.std.specs.Prelude.{◌≡◌, ◌+◌, ◌*◌, ◌≤◌, length};
ghost use Rattle.layers.specs.Shape.{IsShaped};
ghost use Rattle.std.proofs.Props.{props};

use crate::room::Room;
use layers::node::Node;

pub mod asks;
pub mod layer;

/// A diagram that can only be asked and read. As long as it stands, or a layer that it has handed out, the list of records can be
/// neither altered nor lent anew.
#[derive(Drop)]
pub struct ReadingForm<'a, 'n, S, V> {
    pub(crate) room: Room<'a>,
    pub(crate) nodes: &'n [Node<S, V>],
    ghost fits: { room.round.now.n * room.width + 1 ≤ length nodes.now },
    ghost shaped: { IsShaped room.round.now.n room.width nodes.now } by { Prim.hlevel props },
}
