//! What a round holds that its text does not say outright: how early each door can be done, what follows from the pairs, and
//! whether the load can be kept. Where one of these rules out every order, a bound of none has its reason.
#![tactic(auto)]

ghost use Rattle.outlook.specs.Chains.{ChainsHold, CirclesBreak};
ghost use Rattle.outlook.specs.Earliest.{NoneIsInTime};

pub mod chains;
pub mod earliest;
pub mod load_orders;
pub mod outlook;
mod relations;
mod shown;

/// A door that is too late at its earliest rules out every order.
pub fn none_is_in_time()
    ensures { NoneIsInTime }
{}

/// What chains of pairs mean for the orders that keep the pairs.
pub fn chains_hold()
    ensures holds { ChainsHold }
    ensures circles { CirclesBreak }
{}
