//! A part order of a round's doors.
ghost use Rattle.std.specs.Prelude.{◌≡◌, true};
ghost use Rattle.doors.specs.Orders.{is_part_order};

use round::table::Round;

pub mod asking;
pub mod making;

/// A part order of a round's doors: each of them a door of the round, none twice.
#[derive(Clone, Copy, Debug, PartialEq, Eq)]
pub struct Order<'a> {
    pub round: &'a Round,
    pub doors: &'a [usize],
    ghost part: { is_part_order round.now.n doors.now ≡ true },
}
