//! A walk over the layers from the end: a row says what lies onward from each node of a layer, place by place.
ghost use Rattle.std.specs.Prelude.{◌≡◌, ℕ, ◌+◌, ◌*◌, ◌≤◌, length, slice_index_or};
ghost use Rattle.layers.specs.Calls.{arcs};
ghost use Rattle.seek.specs.Rows.{by_first, none, row_of, seen_from, view, views};

use crate::onward::{NOTHING, Onward};
use crate::row::places_of;
use layers::node::Node;

/// Over the arcs of u by the first n doors.
fn onward_from<S: Copy, V: Copy>(below: &[Onward; 128], u: &Node<S, V>, n: usize) -> Onward
    requires { n ≤ 16 }
    ensures { (i j : ℕ) → view i j result ≡ by_first i j (views i j below.now) u.now n }
{
    let mut got = NOTHING;
    for k in 0..n {
        let t = u.arcs.to[k] as usize;
        if t > 0 && t <= 128 {
            got.add(k + 1, &below[t - 1]);
        }
    }
    got
}

/// The row of the layer us, from the row below it: nothing lies onward from the first unused place on.
fn row_above<S: Copy, V: Copy>(below: &[Onward; 128], us: &[Node<S, V>], n: usize) -> [Onward; 128]
    requires n_bound { n ≤ 16 }
    requires us_len_bound { length us.now ≤ 128 }
    ensures { (i j t : ℕ) → slice_index_or (views i j result) t none
        ≡ slice_index_or (row_of (λ u. by_first i j (views i j below.now) u n) us.now) t none }
{
    let mut row = [NOTHING; 128];
    for (a, u) in us.iter().enumerate() {
        if u.label.down.lasts == 0 {
            break;
        }
        row[a] = onward_from(below, u, n);
    }
    row
}

/// The row of the first layer.
pub(crate) fn top_row<S: Copy, V: Copy>(
    nodes: &[Node<S, V>],
    n: usize,
    width: usize,
) -> [Onward; 128]
    requires n_bound { n ≤ 16 }
    requires width_bound { width ≤ 128 }
    requires width_in_bounds { n * width + 1 ≤ length nodes.now }
    ensures { (i j t : ℕ) → slice_index_or (views i j result) t none
        ≡ seen_from i j (arcs n width nodes.now) t }
{
    let mut row = [NOTHING; 128];
    row[0].ends = true;
    for k in (0..n).rev() {
        row = row_above(&row, places_of(nodes, width, k), n);
    }
    row
}
