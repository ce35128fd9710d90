//! Which kind of line may come next.

/// What the lines ahead lead to.
#[derive(Clone, Copy, Debug, PartialEq, Eq)]
pub enum Stage {
    /// the round line
    Head,
    /// the line of that door
    Doors(u16),
    /// the drives from that place
    Drives(u16),
    /// a pair or the first keeper, or the end of the text
    Pairs,
    /// a keeper, or the end of the text
    Keepers,
}
