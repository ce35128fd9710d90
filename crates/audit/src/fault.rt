//! What the audit finds wrong.
use std::fmt;

#[derive(Clone, Copy, PartialEq)]
pub(crate) enum Fault {
    OrderLost,
    LateBelow,
    BoundAbove,
    BoundMissing,
    MustBroken,
    PathNotAllowed,
    TooManyPaths,
    MorePaths,
    BoundNotLeast,
    MustNotExact,
    HoldsWrong,
    LayerCount,
    LayerRecords,
}

impl fmt::Display for Fault {
    fn fmt<W: fmt::Write>(&self, f: &mut fmt::Formatter<W>) -> fmt::Result {
        f.write_str(match self {
            Fault::OrderLost => "a wanted order is no path",
            Fault::LateBelow => "a node is to be left before a wanted order leaves it",
            Fault::BoundAbove => "the bound is above a wanted order",
            Fault::BoundMissing => "no bound, but a wanted order",
            Fault::MustBroken => "a must that a wanted order breaks",
            Fault::PathNotAllowed => "settled: a path is no allowed order",
            Fault::TooManyPaths => "settled: too many paths",
            Fault::MorePaths => "settled: there are more paths than allowed orders",
            Fault::BoundNotLeast => "settled: the bound is not the least cost of a path",
            Fault::MustNotExact => "settled: a must is not exact",
            Fault::HoldsWrong => "holds does not say of a list what its arcs say",
            Fault::LayerCount => "a layer is handed out with more or fewer nodes than arcs lead to",
            Fault::LayerRecords => "a layer is handed out with other records than it has",
        })
    }
}
