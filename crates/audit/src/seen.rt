//! What is seen of a diagram.
use crate::ahead::Ahead;
use crate::case::LENT;
use crate::counts::Counts;
use diagram::diagram::Diagram;
use layers::node::{Arcs, Node};
use rules::rule::Rule;

/// The arcs of a diagram and the last minutes to leave, place by place, and what it answers.
#[derive(Clone, Copy)]
pub(crate) struct Seen<V> {
    pub(crate) arcs: [Arcs; LENT],
    pub(crate) lates: [i32; LENT],
    pub(crate) bound: Option<V>,
    pub(crate) settled: bool,
    /// the musts that are yes
    pub(crate) musts: Ahead,
}

fn arcs_of<S: Copy, V: Copy>(nodes: &[Node<S, V>]) -> [Arcs; LENT] {
    let mut arcs = [Arcs { to: [0; 16] }; LENT];
    for k in 0..LENT.min(nodes.len()) {
        arcs[k] = nodes[k].arcs;
    }
    arcs
}

fn lates_of<S: Copy, V: Copy>(nodes: &[Node<S, V>]) -> [i32; LENT] {
    let mut lates = [0; LENT];
    for k in 0..LENT.min(nodes.len()) {
        lates[k] = nodes[k].label.up.late;
    }
    lates
}

/// Asks for each pair of doors; some are no doors of the round, and these refusals are counted.
fn musts_of<S: Copy, V: Copy>(diagram: &Diagram<'_, '_, S, V>, counts: &mut Counts) -> Ahead {
    let mut musts = Ahead::none();
    for i in 0..8 {
        for j in 0..8 {
            match diagram.must(i, j) {
                Ok(true) => musts.add(i, j),
                Ok(false) => {}
                Err(refusal) => counts.refuse(refusal),
            }
        }
    }
    musts
}

/// The diagram as it is now.
pub(crate) fn look<R: Rule, V: Copy>(
    diagram: &Diagram<'_, '_, R::State, V>,
    rule: &R,
    counts: &mut Counts,
) -> Seen<V> {
    Seen {
        arcs: arcs_of(diagram.nodes()),
        lates: lates_of(diagram.nodes()),
        bound: diagram.bound(),
        settled: diagram.settled(rule),
        musts: musts_of(diagram, counts),
    }
}
