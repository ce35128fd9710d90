//! The nodes of a layer that move down once one is taken out: their records, and the arcs that lead to them.
ghost use Rattle.std.specs.Prelude.{◌≡◌, ℕ, ◌-◌, ◌<◌, ◌≤◌, [], ◌∷◌, ◌++◌, map, length};
ghost use Rattle.layers.specs.Join.{without_place};
ghost use Rattle.layers.specs.Targets.{at_door};
ghost use Rattle.split.specs.Joined.{moved_to, moved_node};

use layers::node::{Arcs, Node};

/// The number that has taken the place of t: hi became lo, and what came after hi has moved down.
#[tactic(auto, unfolding(crate::specs::Joined::moved_to, layers::specs::Join::place_after_join))]
fn moved_to(lo: u8, hi: u8, t: u8) -> u8
    requires one_le_lo { 1 ≤ lo }
    requires lo_lt_hi { lo < hi }
    ensures { (j : ℕ) → result ≡ at_door (moved_to (lo - 1) (hi - 1)) j t }
{
    if t == hi {
        lo
    } else if t > hi {
        t - 1
    } else {
        t
    }
}

fn move_node<S: Copy, V: Copy>(x: &Node<S, V>, lo: u8, hi: u8) -> Node<S, V>
    requires one_le_lo { 1 ≤ lo }
    requires lo_lt_hi { lo < hi }
    ensures { result ≡ moved_node (lo - 1) (hi - 1) x.now }
{
    let to = x.arcs.to.map(|t| moved_to(lo, hi, t));
    Node {
        arcs: Arcs { to },
        label: x.label,
    }
}

/// The arcs of the layer before.
pub(crate) fn move_layer<S: Copy, V: Copy>(us: &mut [Node<S, V>], lo: u8, hi: u8)
    requires one_le_lo { 1 ≤ lo }
    requires lo_lt_hi { lo < hi }
    ensures { us.new ≡ map (moved_node (lo - 1) (hi - 1)) us.old }
{
    for x in us.iter_mut() {
        *x = move_node(x, lo, hi);
    }
}

/// Takes out the record at `at`: the later ones move down, and the last place is blank.
pub(crate) fn take_out<S: Copy, V: Copy>(us: &mut [Node<S, V>], at: usize, blank: &Node<S, V>)
    requires { at < length us.old }
    ensures { us.new ≡ without_place at us.old ++ blank.now ∷ [] }
{
    let last = us.len() - 1;
    us.copy_within(at + 1.., at);
    us[last] = *blank;
}
