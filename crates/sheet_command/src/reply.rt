//! What the program prints of a text, as a value.
ghost use Rattle.std.specs.Prelude.{IfOk};
ghost use Rattle.sheet_command.specs.Replies.{IsMade, RepliesTo};

use cli::input::round_of;
use cli::output::{Reply, answered, refused};
use round_sheet::sheet::{Place, RECORDS, Sheet};
use std::alloc::{AllocError, Global};
use text::refusal::Refusal;

/// The sheet of the round that a text holds, made over the lent records, or why the text is refused.
pub fn sheet_in(text: &[u8], records: &mut [Place; RECORDS]) -> Result<Sheet, Refusal>
    ensures { IsMade text.now records.old records.new result }
{
    let round = round_of(text)?;
    Ok(Sheet::of(&round, records).unwrap())
}

/// What the program prints of a text, and its status: the sheet of the round that the text holds, or its refusal.
pub fn sheet_reply(
    text: &[u8],
    records: &mut [Place; RECORDS],
    alloc: Global,
) -> Result<Reply, AllocError>
    ensures { IfOk result (RepliesTo text.now records.old records.new) }
{
    match sheet_in(text, records) {
        Ok(sheet) => answered(alloc, &sheet),
        Err(refusal) => refused(alloc, &refusal),
    }
}
