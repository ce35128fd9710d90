//! The round and the width of a diagram, once they are checked.
ghost use Rattle.std.specs.Prelude.{◌≤◌};

use round::table::Round;

pub mod check;

/// A round and a width from 1 to 128 for which a diagram may be opened.
#[derive(Clone, Copy)]
pub struct Room<'a> {
    pub round: &'a Round,
    pub width: usize,
    ghost wide: { 1 ≤ width },
    ghost narrow: { width ≤ 128 },
}
