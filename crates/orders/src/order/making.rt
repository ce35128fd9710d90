//! Lists of numbers that are part orders.
ghost use Rattle.std.specs.Prelude.{◌≡◌, false, MatchOption};
ghost use Rattle.doors.specs.Orders.{is_part_order};

use super::Order;
use doors::{contains, with};
use round::table::Round;

/// Whether the list has doors of the round alone, none twice.
fn is_part_order(round: &Round, list: &[usize]) -> bool
    ensures { result ≡ is_part_order round.now.n list.now }
{
    let mut seen = 0;
    for j in list {
        if !round.has_door(*j) || contains(seen, *j) {
            return false;
        }
        seen = with(seen, *j);
    }
    true
}

impl<'a> Order<'a> {
    /// The list as a part order of the round's doors, if it is one.
    pub fn of(round: &'a Round, list: &'a [usize]) -> Option<Order<'a>>
        ensures { MatchOption result (is_part_order round.now.n list.now ≡ false)
            (λ o. (o.round ≡ round.entry) × (o.doors ≡ list.entry)) }
    {
        if is_part_order(round, list) {
            Some(Order { round, doors: list })
        } else {
            None
        }
    }
}
