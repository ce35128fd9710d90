//! What a call goes by.
use round::table::Round;

/// The round, the side rule, the tally and the width of a diagram: put together in each call from what is lent to it, never kept.
#[derive(Clone, Copy)]
pub struct Setting<'a, R, T> {
    pub round: &'a Round,
    pub rule: &'a R,
    pub tally: &'a T,
    pub width: usize,
}
