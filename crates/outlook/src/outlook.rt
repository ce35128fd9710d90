//! What is said of a round ahead of any diagram.
ghost use Rattle.std.specs.Prelude.{◌≡◌, ◌≤◌, ◌↔◌, IfOk, IsTrue};
ghost use Rattle.outlook.specs.Reasons.{RulesOutAll, has_no_place, is_kept, rules_out_all};
ghost use Rattle.outlook.specs.LoadMeanings.{LoadMeans};
ghost use Rattle.outlook.specs.Outlooks.{Tells};

use crate::chains::doors_ahead;
use crate::earliest::earliest_finishes;
use crate::load_orders::order_keeping_load;
use doors::{DoorSet, contains};
use round::table::Round;
use std::alloc::{AllocError, Global};

/// Whether the load can be kept by an order of all doors.
#[derive(Debug, Drop)]
pub enum LoadOutlook {
    /// no order keeps it
    Never,
    /// some orders keep it, but none of them keeps the pairs
    NotWithPairs,
    /// this order keeps it, and the pairs
    Kept(Vec<usize>),
}

impl LoadOutlook {
    /// Whether the load of the round can be kept.
    fn of(round: &Round, alloc: Global) -> Result<LoadOutlook, AllocError>
        ensures { IfOk result (LoadMeans round.now) }
    {
        if let Some(order) = order_keeping_load(round, &round.ahead, alloc)? {
            return Ok(LoadOutlook::Kept(order));
        }
        let alone = order_keeping_load(round, &[0; 17], alloc)?;
        Ok(match alone {
            Some(_) => LoadOutlook::NotWithPairs,
            None => LoadOutlook::Never,
        })
    }

    /// Whether some order keeps load and pairs.
    fn is_kept(&self) -> bool
        ensures { result ≡ is_kept self.now }
    {
        match self {
            LoadOutlook::Never | LoadOutlook::NotWithPairs => false,
            LoadOutlook::Kept(_) => true,
        }
    }
}

/// What a round holds that its text does not say outright.
#[derive(Debug, Drop)]
pub struct Outlook<'a> {
    pub round: &'a Round,
    /// for each door, by number, the least minute at which the work there can end, whatever comes first
    pub earliest: [u32; 17],
    /// for each door, by number, the set of the doors that have to come ahead of it, by one pair or by several
    pub ahead: [DoorSet; 17],
    /// whether the load can be kept
    pub load: LoadOutlook,
}

impl<'a> Outlook<'a> {
    /// What is said of this round.
    pub fn of(round: &'a Round, alloc: Global) -> Result<Outlook<'a>, AllocError>
        ensures { IfOk result (Tells round.now) }
    {
        Ok(Outlook {
            round,
            earliest: earliest_finishes(round),
            ahead: doors_ahead(&round.ahead),
            load: LoadOutlook::of(round, alloc)?,
        })
    }

    /// Whether door j is too late even at its earliest, or has to come ahead of itself.
    fn has_no_place(&self, j: usize) -> bool
        requires { j ≤ 16 }
        ensures { result ≡ has_no_place self.now j }
    {
        u32::from(self.round.doors[j].closes) < self.earliest[j] || contains(self.ahead[j], j)
    }

    /// Whether a door is too late even at its earliest, or has to come ahead of itself, or no order keeps load and pairs.
    pub fn rules_out_all(&self) -> bool
        ensures value { result ≡ rules_out_all self.now }
        ensures means { IsTrue result ↔ RulesOutAll self.now }
    {
        for j in 1..self.round.n + 1 {
            if self.has_no_place(j) {
                return true;
            }
        }
        !self.load.is_kept()
    }
}
