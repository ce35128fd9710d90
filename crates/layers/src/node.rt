//! One place of the lent list of records.
use doors::DoorSet;

/// For each of the doors 1 to 16 the number of its arc's target in the next layer, 0 for no arc.
#[derive(Clone, Copy)]
pub struct Arcs {
    pub to: [u8; 16],
}

/// What is worked out from the first node: which doors every path to the node has, and which some path, the least finish,
/// the last places, the rule's state and the least cost.
#[derive(Clone, Copy)]
pub struct Down<S, V> {
    pub all: DoorSet,
    pub some: DoorSet,
    pub finish: u32,
    pub lasts: DoorSet,
    pub state: S,
    pub value: V,
}

/// What is worked out from the end: the doors on every path from the node to the end, and on at least one, and the last minute
/// to leave the node.
#[derive(Clone, Copy)]
pub struct Up {
    pub allup: DoorSet,
    pub someup: DoorSet,
    pub late: i32,
}

/// What stands at a node: worked out from the first node, and from the end.
#[derive(Clone, Copy)]
pub struct Label<S, V> {
    pub down: Down<S, V>,
    pub up: Up,
}

/// One record: the arcs of a place and its label.
#[derive(Clone, Copy)]
pub struct Node<S, V> {
    pub arcs: Arcs,
    pub label: Label<S, V>,
}
