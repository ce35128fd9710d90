/// What is said of an order.
#[derive(Clone, Copy, Debug, PartialEq, Eq)]
pub enum Verdict {
    Allowed,
    /// a door of the round is missing
    Incomplete,
    /// the first fault: that door finishes after it closes
    Closes(usize),
    /// the first fault: that door breaks the side rule
    Breaks(usize),
}
