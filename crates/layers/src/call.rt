//! The calls that alter a diagram, written down, and what they answer.
use crate::refined::Refined;
use crate::refusal::Refusal;

/// A call that may alter a diagram.
#[derive(Clone, Copy, Debug, PartialEq)]
pub enum Call<V> {
    /// take out each arc that one of the six tests bars
    Sweep,
    /// part a node of a layer
    Part {
        layer: usize,
        node: usize,
    },
    /// join two nodes of a layer
    Join {
        layer: usize,
        first: usize,
        second: usize,
    },
    /// take out each arc whose arrival has a value above the ceiling
    Cut {
        ceiling: V,
    },
    /// sweep and part from layer to layer
    Refine,
    /// take out each arc whose arrival finishes after the last minute to leave its target
    Backsweep,
}

/// What a call answers.
#[derive(Clone, Copy, Debug, PartialEq)]
pub enum Answer {
    /// a sweep, a cut or a backsweep: how many arcs it took out
    Removed(usize),
    /// a part or a join: done, or refused, and then nothing is altered
    Done(Result<(), Refusal>),
    /// a refine: how far it came
    Refined(Refined),
}
