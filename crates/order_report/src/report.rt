//! The report of one order of all the doors of a round.
ghost use Rattle.std.specs.Prelude.{IfOk, MatchOption};
ghost use Rattle.allowed.specs.Orders.{IsFullOrder};
ghost use Rattle.order_report.specs.Reports.{Reports};

use orders::order::Order;
use orders::verdict::Verdict;
use round::table::Round;
use rules::both::Both;
use std::alloc::{AllocError, Global};
use tallies::driving::Driving;
use tallies::late::LateDoors;

/// What is said of one order of all the doors of a round.
#[derive(Debug, Drop)]
pub struct Report<'a> {
    /// The doors, in the order's sequence.
    pub doors: &'a [usize],
    /// The minute at which each of them finishes.
    pub finishes: Vec<u32>,
    /// Whether the order is allowed, or its first fault.
    pub verdict: Verdict,
    /// The minutes driven, from the yard to the last door.
    pub driving: u32,
    /// The doors that are late, and the minutes by which they are.
    pub late: (u32, u32),
}

/// Why there is no report: the doors named are no order of all the round's doors.
#[derive(Clone, Copy, Debug, PartialEq, Eq)]
pub struct NoOrder;

impl<'a> Report<'a> {
    /// Reports on the doors in this sequence; none if they are no order of all the round's doors.
    pub fn of(
        round: &'a Round,
        doors: &'a [usize],
        alloc: Global,
    ) -> Result<Option<Report<'a>>, AllocError>
        ensures { IfOk result (λ report. MatchOption report
            (¬ IsFullOrder round.now doors.now)
            (Reports round.now doors.now)) }
    {
        let Some(order) = Order::of(round, doors) else {
            return Ok(None);
        };
        let verdict = order.verdict(&Both::of(round));
        if let Verdict::Incomplete = verdict {
            return Ok(None); // a door is missing
        }
        let finishes = order.finishes(alloc)?;
        Ok(Some(Report {
            doors,
            finishes,
            verdict,
            driving: order.cost(&Driving),
            late: order.cost(&LateDoors::of(round)),
        }))
    }
}
