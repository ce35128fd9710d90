//! Which orders of a round its own side rules and hours allow, and what they cost: the words in which the sheet and the
//! report of an order speak.
#![tactic(auto)]

ghost use Rattle.allowed.specs.Orders.{AllowedMeans};

/// An order is allowed exactly if it is so under the rule of pairs, load and keepers together: the same orders as those of
/// which the claim on a diagram with that rule speaks.
pub fn allowed_means()
    ensures { AllowedMeans }
{}
