//! Dividing the in-arcs of a node between it and a new one, over a test of which stay.
ghost use Rattle.std.specs.Prelude.{◌≡◌, ℕ, ◌+◌, ◌-◌, ◌<◌, ◌≤◌, Bool, true, false, not, map, take, length, MatchOption, slice_index, slice_index_or};
ghost use Rattle.layers.specs.declared.node.Label.{Label as ALabel};
ghost use Rattle.layers.specs.declared.node.Node.{Node as ANode};
ghost use Rattle.split.specs.Listed.{told_from, put_arc, IsListed, written, all_stay};
ghost use Rattle.split.specs.Parted.{or_unused, parted_node};

use crate::listing::{InArc, InArcs};
use layers::node::{Label, Node};

/// Which in-arcs of a node stay, by the source's label and the door. There is one such test, by which `part` goes; another way
/// of splitting a node comes in as another one.
pub(crate) trait Test {
    type State: Copy;

    type Value: Copy;

    ghost keeps: { Self → ALabel Self.State Self.Value → ℕ → Bool };

    fn stays(&self, u: &Label<Self::State, Self::Value>, j: usize) -> bool
        requires { j < 17 }
        ensures { result ≡ keeps self.now u.now j };
}

/// Whether the in-arc x does not stay.
#[inline]
fn leaves<K: Test>(test: &K, us: &[Node<K::State, K::Value>], x: &InArc) -> bool
    requires place_in_bounds { x.now.place < length us.now }
    requires door_bound { x.now.door < 16 }
    ensures { (z : ANode (K.State) (K.Value))
        → let u = slice_index_or us.now x.now.place z in
        result ≡ not (K.keeps test.now u.label (x.now.door + 1)) }
{
    !test.stays(&us[x.place as usize].label, x.door as usize + 1)
}

/// The place in the list of the first in-arc of node t that does not stay.
pub(crate) fn first_leaving<K: Test>(
    test: &K,
    us: &[Node<K::State, K::Value>],
    list: &InArcs,
    t: u8,
) -> Option<usize>
    requires listed { IsListed us.now list.now }
    ensures { let told = told_from 0 (written us.now list.now) in
        let stay = all_stay (K.keeps test.now) t in
        MatchOption result (stay told ≡ true)
        (λ m. (m < 2048) × (slice_index list.now.to m ≡ t) × (stay told ≡ false)
        × (stay (take m told) ≡ true)) }
{
    for m in list.starts[t as usize] as usize..list.many {
        if list.to[m] == t && leaves(test, us, &list.arcs[m]) {
            return Some(m);
        }
    }
    None
}

/// The in-arcs that do not stay go to `new`, of those of the node of the in-arc at `from`, which is the first of them.
pub(crate) fn divide<K: Test>(
    test: &K,
    us: &[Node<K::State, K::Value>],
    list: &mut InArcs,
    from: usize,
    new: u8,
)
    requires few { from < 2048 }
    requires one_le_t { 1 ≤ slice_index list.old.to from }
    requires one_le_new { 1 ≤ new }
    requires listed { IsListed us.now list.old }
    requires first { all_stay (K.keeps test.now) (slice_index list.old.to from)
        (take from (told_from 0 (written us.now list.old))) ≡ true }
    ensures records { let stays = or_unused (K.keeps test.now) in
        let a = slice_index list.old.to from - 1 in
        written us.now list.new ≡ map (parted_node stays a (new - 1)) (written us.now list.old) }
    ensures listed { IsListed us.now list.new }
{
    let t = list.to[from];
    for m in from..list.many {
        if list.to[m] == t && leaves(test, us, &list.arcs[m]) {
            list.to[m] = new;
        }
    }
    let start = list.starts[new as usize];
    list.starts[new as usize] = start.min(from as u16);
}

/// Writes back that the in-arc x leads to node t.
fn put_arc<S: Copy, V: Copy>(us: &mut [Node<S, V>], x: &InArc, t: u8)
    requires place_in_bounds { x.now.place < length us.old }
    requires door_bound { x.now.door < 16 }
    ensures { us.new ≡ put_arc x.now.place x.now.door t us.old }
{
    us[x.place as usize].arcs.to[x.door as usize] = t;
}

/// Writes the listed in-arcs back into the records.
#[tactic(auto, using(labels::proofs::Folds::folded_counting), unfolding(crate::specs::Listed::written))]
pub(crate) fn put_back<S: Copy, V: Copy>(us: &mut [Node<S, V>], list: &InArcs)
    requires { IsListed us.old list.now }
    ensures { us.new ≡ written us.old list.now }
{
    for m in 0..list.many {
        put_arc(us, &list.arcs[m], list.to[m]);
    }
}
