//! Tidying in place: the nodes on no path go, and the rest of each layer moves together and is numbered anew.
//! The tables go by a target's byte, so that no target is out of their range: marks by number, and new numbers by old, of
//! which 0, no arc, stays 0.
ghost use Rattle.std.specs.Prelude.{◌≡◌, ◌+◌, ◌-◌, ◌*◌, ◌<◌, ◌≤◌, true, ◌++◌, map, length, take, drop, replicate, if◌then◌else◌, filter, slice_index};
ghost use Rattle.tidying.specs.Paths.{KeptExactly, SamePaths};
ghost use Rattle.labels.specs.Passes.{fits};
ghost use Rattle.tidying.specs.Counted.{arcs_of, arcs_within};
ghost use Rattle.layers.specs.Targets.{targets, with_targets};
ghost use Rattle.tidying.specs.Tidied.{bare_node, lively, marked, reached_next, renewed, renewals, together, numbering, numbers, tidied, first_mark};

use crate::count::{count_nodes, count_of};
use labels::room::has_room;
use layers::node::{Arcs, Label, Node};
use round::table::Round;

/// Whether an arc leaves the node.
#[tactic(auto, unfolding(crate::specs::Tidied::lively))]
fn lives<S: Copy, V: Copy>(x: &Node<S, V>) -> bool
    ensures { result ≡ lively x.now }
{
    count_of(x) != 0
}

/// Marks the targets of a node.
#[tactic(auto, using(crate::proofs::Marks::marked_more, crate::proofs::Marks::marked_all), unfolding(crate::specs::Tidied::marked))]
fn mark<S: Copy, V: Copy>(marks: &mut [bool; 256], x: &Node<S, V>)
    ensures { marks.new ≡ marked marks.old (targets x.now) }
{
    for t in x.arcs.to {
        marks[t as usize] = true;
    }
}

/// Marks the targets of the marked nodes.
#[tactic(auto, using(crate::proofs::Marks::sent_all), unfolding(crate::specs::Tidied::reached_next))]
fn mark_next<S: Copy, V: Copy>(from: &[bool; 256], us: &[Node<S, V>]) -> [bool; 256]
    requires { length us.now ≤ 128 }
    ensures { result ≡ reached_next from.now us.now }
{
    let mut marks = [false; 256];
    for (a, x) in us.iter().enumerate() {
        if from[a + 1] {
            mark(&mut marks, x);
        }
    }
    marks
}

/// Numbers a node's targets anew, and answers how many of its arcs went.
fn renew<S: Copy, V: Copy>(x: &mut Node<S, V>, new: &[u8; 256]) -> usize
    requires { slice_index new.now 0 ≡ 0 }
    ensures targets { x.new ≡ with_targets x.old
        (map (λ t. slice_index new.now t) (targets x.old)) }
    ensures lost { result + arcs_of x.new ≡ arcs_of x.old }
    ensures few { result ≤ 16 }
{
    let before = count_of(x);
    let mut to = x.arcs.to;
    for t in to.iter_mut() {
        *t = new[*t as usize];
    }
    x.arcs.to = to;
    before - count_of(x)
}

/// A node that is reached is renewed, another goes blank. Answers how many arcs went.
#[tactic(auto, unfolding(crate::specs::Tidied::renewed))]
fn renew_if<S: Copy, V: Copy>(
    x: &mut Node<S, V>,
    reached: bool,
    new: &[u8; 256],
    blank: Node<S, V>,
) -> usize
    requires none { slice_index new.now 0 ≡ 0 }
    requires bare { arcs_of blank ≡ 0 }
    ensures renewed { x.new ≡ renewed blank reached new.now x.old }
    ensures lost { result + arcs_of x.new ≡ arcs_of x.old }
    ensures few { result ≤ 16 }
{
    if reached {
        return renew(x, new);
    }
    let lost = count_of(x);
    *x = blank;
    lost
}

/// Renews the nodes that are reached; the others go blank. Answers how many arcs went.
#[tactic(auto, unfolding(crate::specs::Tidied::renewals))]
fn renew_layer<S: Copy, V: Copy>(
    us: &mut [Node<S, V>],
    from: &[bool; 256],
    new: &[u8; 256],
    blank: Node<S, V>,
) -> usize
    requires us_bound { length us.old ≤ 128 }
    requires none { slice_index new.now 0 ≡ 0 }
    requires bare { arcs_of blank ≡ 0 }
    ensures renewed { us.new ≡ renewals blank from.now new.now us.old }
    ensures lost { result + arcs_within us.new ≡ arcs_within us.old }
    ensures few { result ≤ 16 * length us.old }
{
    let mut lost = 0;
    for (a, x) in us.iter_mut().enumerate() {
        lost += renew_if(x, from[a + 1], new, blank);
    }
    lost
}

/// The numbers that the nodes with arcs get, by the numbers that they have.
#[tactic(auto, using(crate::proofs::Numbers::numbered_all), unfolding(crate::specs::Tidied::numbering))]
fn number_layer<S: Copy, V: Copy>(us: &[Node<S, V>]) -> [u8; 256]
    requires { length us.now ≤ 128 }
    ensures { result ≡ numbering us.now }
{
    let mut new = [0u8; 256];
    let mut count = 0;
    for (a, x) in us.iter().enumerate() {
        if lives(x) {
            count += 1;
            new[a + 1] = count;
        }
    }
    new
}

/// Moves the nodes with arcs together, and answers how many there are.
fn gather_up<S: Copy, V: Copy>(us: &mut [Node<S, V>]) -> usize
    ensures front { take result us.new ≡ filter lively us.old }
    ensures within { result ≤ length us.old }
{
    let mut k = 0;
    for i in 0..us.len() {
        if lives(&us[i]) {
            if k != i {
                us[k] = us[i];
            }
            k += 1;
        }
    }
    k
}

/// Writes z to each place.
fn blank_all<S: Copy, V: Copy>(us: &mut [Node<S, V>], z: Node<S, V>)
    ensures { us.new ≡ replicate (length us.old) z }
{
    for x in us.iter_mut() {
        *x = z;
    }
}

/// Moves the nodes with arcs together, and blanks the places after them.
#[tactic(auto, unfolding(crate::specs::Tidied::together))]
fn compact<S: Copy, V: Copy>(us: &mut [Node<S, V>], z: Node<S, V>)
    ensures { us.new ≡ together z us.old }
{
    let k = gather_up(us);
    blank_all(&mut us[k..], z);
}

/// The numbers of a layer's nodes after tidying, by those before it, and how many arcs were lost from it on.
#[derive(Clone, Copy)]
struct Renumbered {
    numbers: [u8; 256],
    lost: usize,
}

/// Tidies the nodes us of a layer, of which the marked ones are reached; `new` has the numbers of the next.
fn tidy_nodes<S: Copy, V: Copy>(
    us: &mut [Node<S, V>],
    from: &[bool; 256],
    new: &[u8; 256],
    blank: &Node<S, V>,
) -> Renumbered
    requires us_bound { length us.old ≤ 128 }
    requires none { slice_index new.now 0 ≡ 0 }
    requires bare { arcs_of blank.now ≡ 0 }
    ensures records { us.new ≡ together blank.now (renewals blank.now from.now new.now us.old) }
    ensures numbered { result.numbers ≡ numbering (renewals blank.now from.now new.now us.old) }
    ensures lost { result.lost + arcs_within us.new ≡ arcs_within us.old }
    ensures few { result.lost ≤ 16 * length us.old }
{
    let lost = renew_layer(us, from, new, *blank);
    let numbers = number_layer(us);
    compact(us, *blank);
    Renumbered { numbers, lost }
}

/// Tidies `left` layers of `w` records, the marked nodes of the first being reached.
fn tidy_from<S: Copy, V: Copy>(
    nodes: &mut [Node<S, V>],
    w: usize,
    left: usize,
    from: &[bool; 256],
    blank: &Node<S, V>,
) -> Renumbered
    requires w_bound { w ≤ 128 }
    requires left_bound { left ≤ 16 }
    requires w_in_bounds { left * w < length nodes.old }
    requires bare { arcs_of blank.now ≡ 0 }
    ensures records { nodes.new ≡ tidied w blank.now left from.now nodes.old }
    ensures numbered { result.numbers ≡ numbers w blank.now left from.now nodes.old }
    ensures lost { result.lost + arcs_within nodes.new ≡ arcs_within nodes.old }
    ensures few { result.lost ≤ 16 * (left * w) }
{
    if left == 0 {
        let mut numbers = [0u8; 256];
        numbers[1] = 1;
        return Renumbered { numbers, lost: 0 };
    }
    let (us, rest) = nodes.split_at_mut(w);
    let many = count_nodes(us);
    let next = mark_next(from, &us[..many]);
    let later = tidy_from(rest, w, left - 1, &next, blank);
    let new = later.numbers;
    let here = tidy_nodes(&mut us[..many], from, &new, blank);
    let numbers = here.numbers;
    let lost = here.lost + later.lost;
    Renumbered { numbers, lost }
}

/// Tidies a diagram of n layers of w records and the end, in which the first node alone is reached at the start.
fn tidy_all<S: Copy, V: Copy>(
    nodes: &mut [Node<S, V>],
    n: usize,
    w: usize,
    blank: &Node<S, V>,
) -> usize
    requires w_bound { w ≤ 128 }
    requires n_bound { n ≤ 16 }
    requires w_in_bounds { n * w < length nodes.old }
    requires bare { arcs_of blank.now ≡ 0 }
    ensures records { nodes.new ≡ tidied w blank.now n first_mark nodes.old }
    ensures words { KeptExactly w blank.now n nodes.old }
    ensures paths { SamePaths w blank.now n nodes.old nodes.new }
    ensures lost { result + arcs_within nodes.new ≡ arcs_within nodes.old }
    ensures few { result ≤ 16 * (n * w) }
{
    let mut first = [false; 256];
    first[1] = true;
    tidy_from(nodes, w, n, &first, blank).lost
}

/// Tidies a diagram of the round's doors, and answers how many arcs went: exactly the nodes on a path stay, and exactly the
/// paths. `blank` is the label of the places that are left. A list that has no room for the diagram is left alone.
pub fn tidy<S: Copy, V: Copy>(
    round: &Round,
    nodes: &mut [Node<S, V>],
    width: usize,
    blank: &Label<S, V>,
) -> usize
    ensures records { nodes.new ≡ (if fits round.now.n width (length nodes.old) then tidied width
        (bare_node blank.now) round.now.n first_mark nodes.old else nodes.old) }
    ensures words { fits round.now.n width (length nodes.old) ≡ true
        → KeptExactly width (bare_node blank.now) round.now.n nodes.old }
    ensures paths { fits round.now.n width (length nodes.old) ≡ true
        → SamePaths width (bare_node blank.now) round.now.n nodes.old nodes.new }
    ensures lost { result + arcs_within nodes.new ≡ arcs_within nodes.old }
    ensures few { result ≤ 32768 }
{
    if !has_room(round, width, nodes.len()) {
        return 0;
    }
    let blank = Node {
        arcs: Arcs { to: [0; 16] },
        label: *blank,
    };
    tidy_all(nodes, round.n, width, &blank)
}
