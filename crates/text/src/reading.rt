//! A round from its text.
ghost use Rattle.text.specs.Rounds.{Reads, Accepts, Bounded};

use crate::draft::Draft;
use crate::refusal::Refusal;
use crate::text::draft_of;
use round::table::Round;

/// The longest text that is read where the length is bounded, in bytes.
pub(crate) const LONGEST: usize = 16_384;

/// Writes the round whole once its text is accepted; a refusal leaves the round as it was.
#[tactic(auto, using(crate::proofs::Forms::accepted_form))]
pub fn read(round: &mut Round, text: &[u8]) -> Result<(), Refusal>
    ensures value { Reads result round.old round.new text.now }
    ensures form { Accepts result round.new text.now }
{
    let Draft {
        n,
        load,
        cap,
        grid,
        doors,
        drives,
        ahead,
        keepers,
    } = draft_of(text)?;
    *round = Round {
        n: n as usize,
        load,
        cap,
        grid,
        doors,
        drives,
        ahead,
        keepers,
    };
    Ok(())
}

/// The same, but a text that is too long is refused whatever it holds.
pub fn read_bounded(round: &mut Round, text: &[u8]) -> Result<(), Refusal>
    ensures { Bounded result round.old round.new text.now }
{
    if text.len() > LONGEST {
        return Err(Refusal::TooLong);
    }
    read(round, text)
}
