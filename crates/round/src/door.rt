//! One door of a round.

/// Minutes count from the round's start.
#[derive(Clone, Copy, Debug, PartialEq, Eq)]
pub struct Door {
    pub opens: u16,
    pub closes: u16,
    pub due: u16,
    pub work: u16,
    /// the key boxes picked up, or left where it is below 0
    pub change: i8,
}

/// A door of which nothing is said.
pub const BLANK: Door = Door {
    opens: 0,
    closes: 0,
    due: 0,
    work: 0,
    change: 0,
};
