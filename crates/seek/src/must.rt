//! Whether one door comes before another on every path.
ghost use Rattle.std.specs.Prelude.{◌≡◌, ◌+◌, ◌*◌, ◌≤◌, false, true, length, replicate, if◌then◌else◌};
ghost use Rattle.layers.specs.Calls.{must};
ghost use Rattle.seek.specs.Musts.{musts, set_where};
ghost use Rattle.seek.specs.Rows.{fits, is_behind};

use crate::row::first_row;
use crate::walk::top_row;
use doors::{DoorSet, contains, with};
use layers::node::Node;

/// Whether a list of that length has room for a diagram of n doors and that width.
pub(crate) fn fits(n: usize, width: usize, len: usize) -> bool
    ensures value { result ≡ fits n width len }
    ensures few { result ≡ true → n ≤ 16 }
    ensures narrow { result ≡ true → width ≤ 128 }
    ensures room { result ≡ true → n * width + 1 ≤ len }
{
    (1..=128).contains(&width) && n <= 16 && len >= n * width + 1
}

/// Yes if no path of the diagram of n doors has the door j at an earlier place than the door i. No for a list too short for the
/// diagram, a width out of 1 to 128, and more than 16 doors.
pub fn must<S: Copy, V: Copy>(
    nodes: &[Node<S, V>],
    n: usize,
    width: usize,
    i: usize,
    j: usize,
) -> bool
    ensures { result ≡
        (if fits n width (length nodes.now) then must n width i j nodes.now else false) }
{
    if !fits(n, width, nodes.len()) {
        return false;
    }
    let row = first_row(i, j, nodes, n, width);
    !row[1].both
}

/// Whether door j comes behind door i, where `after` has for each door those that come after it on some path.
fn is_behind(after: &[DoorSet; 17], n: usize, i: usize, j: usize) -> bool
    requires { n ≤ 16 }
    ensures { result ≡ is_behind n after.now i j }
{
    (1..=n).contains(&i) && (1..=n).contains(&j) && i != j && !contains(after[j], i)
}

/// The doors that come behind door i.
#[tactic(auto, unfolding(crate::specs::Musts::set_where))]
fn behind(after: &[DoorSet; 17], n: usize, i: usize) -> DoorSet
    requires { n ≤ 16 }
    ensures { result ≡ set_where (is_behind n after.now i) 16 }
{
    let mut set = 0;
    for j in 1..17 {
        if is_behind(after, n, i, j) {
            set = with(set, j);
        }
    }
    set
}

/// For each door of the diagram of n doors, the doors that it comes before on every path, as a set. None for a list too short
/// for the diagram, a width out of 1 to 128, and more than 16 doors.
pub fn musts<S: Copy, V: Copy>(nodes: &[Node<S, V>], n: usize, width: usize) -> [DoorSet; 17]
    ensures { result ≡
        (if fits n width (length nodes.now) then musts n width nodes.now else replicate 17 0) }
{
    let mut sets = [0; 17];
    if !fits(n, width, nodes.len()) {
        return sets;
    }
    let row = top_row(nodes, n, width);
    for i in 0..17 {
        sets[i] = behind(&row[0].after, n, i);
    }
    sets
}
