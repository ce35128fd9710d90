//! What the program `why` replies to a text.
ghost use Rattle.std.specs.Prelude.{Ok, IfOk, MatchResult};
ghost use Rattle.cli.specs.Input.{IsRead};
ghost use Rattle.text.specs.Faults.{IsFault};
ghost use Rattle.why_command.specs.Replies.{RepliesTo};

use advice::advice::Advice;
use cli::input::round_of;
use cli::output::{Reply, Status, answered};
use outlook::outlook::Outlook;
use round::table::Round;
use std::alloc::{AllocError, Global};
use text::fault::{Fault, fault_in};

/// The round that a text holds, or what is wrong with the text.
pub fn judged(text: &[u8]) -> Result<Round, Fault<'_>>
    ensures { MatchResult result (λ round. IsRead text.now (Ok round)) (IsFault text.now) }
{
    match round_of(text) {
        Ok(round) => Ok(round),
        Err(_) => Err(fault_in(text).unwrap()),
    }
}

/// The reply to a text: what its round holds, or, as of one that is refused, what is wrong with it.
pub fn why_reply(text: &[u8], alloc: Global) -> Result<Reply, AllocError>
    ensures { IfOk result (RepliesTo text.now) }
{
    match judged(text) {
        Ok(round) => answered(alloc, &Outlook::of(&round, alloc)?),
        Err(fault) => Reply::of(alloc, &Advice(fault), Status::Refused),
    }
}
