//! The in-arcs of a layer, listed once: by the place of their source, then by door.
ghost use Rattle.std.specs.Prelude.{◌≡◌, ◌+◌, ◌<◌, ◌≤◌, List, ◌++◌, length, slice_index_or};
ghost use Rattle.layers.specs.declared.node.Node.{Node as ANode};
ghost use Rattle.split.specs.Listed.{Told, told_node, IsTold, IsListed, written, IsEarly};

use layers::node::Node;

/// An in-arc: the place of its source, and its door less one.
#[derive(Clone, Copy)]
pub(crate) struct InArc {
    pub(crate) place: u8,
    pub(crate) door: u8,
}

/// The first `many` of `arcs`, and the numbers of the nodes that they lead to. None before `starts[t]` leads to node t.
#[derive(Drop)]
pub(crate) struct InArcs {
    pub(crate) arcs: [InArc; 2048],
    pub(crate) to: [u8; 2048],
    pub(crate) many: usize,
    pub(crate) starts: [u16; 256],
}

/// Lists the arcs of the record u at a place.
fn list_node<S: Copy, V: Copy>(u: &Node<S, V>, place: u8, list: &mut InArcs)
    requires { list.old.many + 16 ≤ 2048 }
    ensures few { list.new.many ≤ list.old.many + 16 }
    ensures told { (us : List (ANode S V)) (told : List (Told S V)) → place < length us
        → ((z : ANode S V) → (slice_index_or us place z).label ≡ u.now.label)
        → IsTold us list.old told → IsTold us list.new (told ++ told_node place u.now) }
    ensures wide { length u.now.arcs.to ≡ 16 }
{
    let arcs: &[u8] = &u.arcs.to;
    if u.label.down.lasts == 0 {
        return;
    }
    for (k, to) in arcs.iter().enumerate() {
        if *to != 0 {
            let m = list.many;
            list.arcs[m] = InArc {
                place,
                door: k as u8,
            };
            list.to[m] = *to;
            list.many = m + 1;
        }
    }
}

/// Finds where the in-arcs of each node start.
#[tactic(auto, using(crate::proofs::InArcs::early_set))]
fn find_starts(list: &mut InArcs)
    requires { list.old.many ≤ 2048 }
    ensures early { IsEarly list.new }
    ensures same { list.new ≡ record list.old { starts = list.new.starts } }
{
    for m in 0..list.many {
        let t = list.to[m] as usize;
        list.starts[t] = list.starts[t].min(m as u16);
    }
}

/// A list of no in-arcs.
pub(crate) fn no_in_arcs() -> InArcs {
    let none = InArc { place: 0, door: 0 };
    InArcs {
        arcs: [none; 2048],
        to: [0; 2048],
        many: 0,
        starts: [2048; 256],
    }
}

/// Lists the arcs of a layer of records, in place of what the list had.
pub(crate) fn list_layer<S: Copy, V: Copy>(us: &[Node<S, V>], list: &mut InArcs)
    requires few { length us.now ≤ 128 }
    ensures listed { IsListed us.now list.new }
    ensures same { written us.now list.new ≡ us.now }
{
    list.many = 0;
    list.starts = [2048; 256];
    for (a, u) in us.iter().enumerate() {
        list_node(u, a as u8, list);
    }
    find_starts(list);
}
