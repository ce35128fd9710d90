//! Audits the diagram: rounds of up to 6 doors drawn by dice, and calls drawn by dice on their diagrams, held after each call
//! against a list of all orders that is made without a diagram. Prints a line for each round, and sums.
#![tactic(auto)]

mod ahead;
mod calls;
mod case;
mod checks;
mod counts;
mod dice;
mod draw;
mod fault;
mod kinds;
mod outcome;
mod paths;
mod reads;
mod run;
mod seen;
mod spoilt;

use anyhow::anyhow;
use case::Case;
use counts::Counts;
use dice::Dice;
use draw::{draw, round_of};
use lister::list::list;
use outcome::Outcome;
use round::table::Round;
use rules::both::Both;
use spoilt::find_all;
use tallies::driving::Driving;
use tallies::late::LateDoors;
use tallies::tally::Tally;

/// How many rounds there are for each tally.
const ROUNDS: usize = 200;

/// A round, and the width of its diagram.
#[derive(Clone, Copy)]
struct Drawn {
    round: Round,
    width: usize,
}

/// Draws a round and a width, most often 1 to 8.
fn draw_round(rt: &HostRuntime, dice: &mut Dice) -> anyhow::Result<Drawn> {
    let n = [1, 2, 3, 3, 3, 4, 4, 4, 5, 6][dice.roll(10)];
    let text = draw(rt.alloc(), dice, n)?;
    let round = round_of(text.as_bytes())?;
    let width = if dice.roll(3) == 0 {
        dice.roll(16).saturating_add(9)
    } else {
        dice.roll(8).saturating_add(1)
    };
    Ok(Drawn { round, width })
}

/// What goes on from round to round.
#[derive(Drop)]
struct Audit<'a> {
    rt: &'a HostRuntime,
    dice: Dice,
    counts: Counts,
}

impl<'a> Audit<'a> {
    /// One round under this tally, and its line up to the bound.
    fn audit_round<T: Tally>(
        &mut self,
        drawn: &Drawn,
        tally: &T,
    ) -> anyhow::Result<Outcome<T::Value>> {
        let rt = self.rt;
        let Drawn { round, width } = drawn;
        let rule = Both::of(round);
        let listing = list(rt.alloc(), round, &rule, tally)?;
        let case = Case {
            round,
            rule: &rule,
            tally,
            width: *width,
            orders: listing.as_slice(),
        };
        let outcome = case.run(rt.alloc(), &mut self.dice, &mut self.counts)?;
        case.note_kinds(rt.alloc(), &mut self.counts)?;
        print!(rt;
            "round\t{}\tdoors\t{}\twidth\t{width}\tallowed\t{}\twanted\t{}\trefused\t{}\tbound\t",
            self.counts.rounds, round.n, outcome.allowed, outcome.wanted, outcome.refused
        )?;
        Ok(outcome)
    }

    fn audit_late(&mut self) -> anyhow::Result<()> {
        let rt = self.rt;
        let drawn = draw_round(rt, &mut self.dice)?;
        let outcome = self.audit_round(&drawn, &LateDoors::of(&drawn.round))?;
        match outcome.bound {
            Some((doors, minutes)) => println!(rt; "{doors} {minutes}\t{outcome}")?,
            None => println!(rt; "none\t{outcome}")?,
        }
        Ok(())
    }

    fn audit_driving(&mut self) -> anyhow::Result<()> {
        let rt = self.rt;
        let drawn = draw_round(rt, &mut self.dice)?;
        let outcome = self.audit_round(&drawn, &Driving)?;
        match outcome.bound {
            Some(minutes) => println!(rt; "{minutes}\t{outcome}")?,
            None => println!(rt; "none\t{outcome}")?,
        }
        Ok(())
    }
}

fn main(rt: HostRuntime) -> anyhow::Result<()> {
    find_all(rt.alloc())?;
    let mut audit = Audit {
        rt: &rt,
        dice: Dice::of(20_240_607),
        counts: Counts::default(),
    };
    for _ in 0..ROUNDS {
        audit.audit_late()?;
    }
    for _ in 0..ROUNDS {
        audit.audit_driving()?;
    }
    let counts = audit.counts;
    print!(rt; "{counts}")?;
    if counts.faults > 0 {
        return Err(anyhow!("a check failed"));
    }
    Ok(())
}
