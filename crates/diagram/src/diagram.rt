//! A diagram over a lent list of records, which it keeps with its round and width.
ghost use Rattle.std.specs.Prelude.{◌≡◌, ◌+◌, ◌*◌, ◌≤◌, length};
ghost use Rattle.layers.specs.Shape.{IsShaped, IsTimely};
ghost use Rattle.std.proofs.Props.{props};

use crate::room::Room;
use layers::node::Node;

pub mod asks;
pub mod calls;
pub mod closing;
pub mod musts;
pub mod opening;

/// A diagram of a round: its round and width, and the list of records that is lent to it, with what arcs decide of these as facts.
#[derive(Drop)]
pub struct Diagram<'a, 'n, S, V> {
    room: Room<'a>,
    nodes: &'n mut [Node<S, V>],
    ghost fits: { room.round.now.n * room.width + 1 ≤ length nodes.now },
    ghost shaped: { IsShaped room.round.now.n room.width nodes.now } by { Prim.hlevel props },
    ghost timely: { IsTimely room.round.now.n room.width nodes.now },
}
