//! The worked cases hold of the definitions.
#![tactic(auto)]

ghost use Rattle.worked.specs.Cases.{WorkedCases};

/// The worked cases hold on every lent list.
pub fn worked_cases()
    ensures { WorkedCases }
{}
