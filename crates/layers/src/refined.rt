//! What refine answers.

/// How far a diagram could be refined.
#[derive(Clone, Copy, Debug, PartialEq)]
pub enum Refined {
    /// every node that could be parted was
    Whole,
    /// no place was left in this layer, 1 to n - 1, for a node that was to be parted
    Full(usize),
}
