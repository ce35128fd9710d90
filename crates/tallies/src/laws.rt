//! Which rounds each tally serves, what it answers, and its laws, with no premise left. The functions do nothing when they run:
//! their contracts are what they are for.
ghost use Rattle.std.specs.Prelude.{◌≡◌, ℕ};
ghost use Rattle.tallies.specs.Driving.{driving_sense};
ghost use Rattle.tallies.specs.Late.{late_sense};
ghost use Rattle.tallies.specs.Tallies.{TallyLaws};

use crate::driving::Driving;
use crate::late::LateDoors;
use crate::tally::Tally;

/// Driving serves rounds of any number of doors, and adds the legs.
pub fn driving_serves(tally: &Driving)
    ensures serves { (n : ℕ) → ⟦<Driving as Tally>⟧.serves tally.now n }
    ensures answers { ⟦<Driving as Tally>⟧.sense tally.now ≡ driving_sense }
    ensures laws { let T = ⟦<Driving as Tally>⟧ in
        (n : ℕ) → TallyLaws n (T.sense tally.now) (T.allows tally.now) }
{}

/// Late doors serve the round that they are of, and count by its due minutes.
pub fn late_doors_serve<'a>(tally: &LateDoors<'a>)
    ensures serves { ⟦<LateDoors<'a> as Tally>⟧.serves tally.now tally.now.round.now.n }
    ensures answers { let r = tally.now.round.now in
        ⟦<LateDoors<'a> as Tally>⟧.sense tally.now ≡ late_sense r.n r.doors }
    ensures laws { let T = ⟦<LateDoors<'a> as Tally>⟧ in
        TallyLaws tally.now.round.now.n (T.sense tally.now) (T.allows tally.now) }
{}
