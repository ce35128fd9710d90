//! A row: what is seen from each node of a layer, by target number.
ghost use Rattle.std.specs.Prelude.{◌≡◌, ℕ, ◌+◌, ◌*◌, ◌≤◌, length, take, drop, slice_index_or};
ghost use Rattle.layers.specs.Calls.{arcs};
ghost use Rattle.seek.specs.Rows.{by_first, none, row_of, seen_from};

use crate::seen::{NONE, Seen, either, through};
use layers::node::Node;

/// Over the arcs of u by the first n doors.
fn by_first<S: Copy, V: Copy>(
    i: usize,
    j: usize,
    below: &[Seen; 256],
    u: &Node<S, V>,
    n: usize,
) -> Seen
    requires { n ≤ 16 }
    ensures { result ≡ by_first i j below.now u.now n }
{
    let mut got = NONE;
    for k in 0..n {
        let t = u.arcs.to[k] as usize;
        got = either(got, through(i, j, k + 1, below[t]));
    }
    got
}

/// The row of the layer us, from the row below it: nothing is seen from the first unused place on.
fn row_of<S: Copy, V: Copy>(
    i: usize,
    j: usize,
    below: &[Seen; 256],
    us: &[Node<S, V>],
    n: usize,
) -> [Seen; 256]
    requires n_bound { n ≤ 16 }
    requires us_len_bound { length us.now ≤ 128 }
    ensures { (t : ℕ) → slice_index_or result t none
        ≡ slice_index_or (row_of (λ u. by_first i j below.now u n) us.now) t none }
{
    let mut row = [NONE; 256];
    for (a, u) in us.iter().enumerate() {
        if u.label.down.lasts == 0 {
            break;
        }
        row[a + 1] = by_first(i, j, below, u, n);
    }
    row
}

/// The places of layer k.
pub(crate) fn places_of<'a, S: Copy, V: Copy>(
    nodes: &'a [Node<S, V>],
    width: usize,
    k: usize,
) -> &'a [Node<S, V>]
    requires { k * width + width ≤ length nodes.now }
    ensures places { result.now ≡ take width (drop (k * width) nodes.now) }
    ensures len { length result.now ≡ width }
{
    let at = k * width;
    &nodes[at..at + width]
}

/// The row of the first layer.
pub(crate) fn first_row<S: Copy, V: Copy>(
    i: usize,
    j: usize,
    nodes: &[Node<S, V>],
    n: usize,
    width: usize,
) -> [Seen; 256]
    requires n_bound { n ≤ 16 }
    requires width_bound { width ≤ 128 }
    requires width_in_bounds { n * width + 1 ≤ length nodes.now }
    ensures { (t : ℕ) → slice_index_or result t none ≡ seen_from i j (arcs n width nodes.now) t }
{
    let mut row = [NONE; 256];
    row[1].ends = true;
    for k in (0..n).rev() {
        row = row_of(i, j, &row, places_of(nodes, width, k), n);
    }
    row
}
