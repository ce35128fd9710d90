//! What is audited: a round with its rule, its tally, the width of its diagram, and its allowed orders.
use lister::list::Listed;
use round::table::Round;
use rules::rule::Rule;
use tallies::tally::Tally;

/// How many records are lent: those of 6 doors and width 24, and more.
pub(crate) const LENT: usize = 152;

#[derive(Drop)]
pub(crate) struct Case<'a, R, T, V> {
    pub(crate) round: &'a Round,
    pub(crate) rule: &'a R,
    pub(crate) tally: &'a T,
    pub(crate) width: usize,
    pub(crate) orders: &'a [Listed<V>],
}

/// Whether neither cost is above the other.
pub(crate) fn is_same<T: Tally>(tally: &T, a: T::Value, b: T::Value) -> bool {
    tally.not_above(a, b) && tally.not_above(b, a)
}
