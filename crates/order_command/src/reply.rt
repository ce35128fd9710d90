//! What the program `order` replies to a text and the words that name an order.
ghost use Rattle.std.specs.Prelude.{IfOk};
ghost use Rattle.order_command.specs.Replies.{RepliesOn, RepliesTo};

use cli::input::round_of;
use cli::output::{Reply, answered, refused, refused_for};
use order_report::named::order_named;
use order_report::report::{NoOrder, Report};
use round::table::Round;
use std::alloc::{AllocError, Global};

/// The reply to words, of which this is the round.
fn reply_on(round: &Round, words: &[&str], alloc: Global) -> Result<Reply, AllocError>
    ensures { IfOk result (RepliesOn round.now words.now) }
{
    let doors = match order_named(round, words, alloc)? {
        Ok(doors) => doors,
        Err(fault) => return refused_for(alloc, &NoOrder, &fault),
    };
    match Report::of(round, doors.as_slice(), alloc)? {
        Some(report) => answered(alloc, &report),
        None => unreachable!(),
    }
}

/// The reply to a text and words: the report of the order that they name in the text's round. What is refused, the text or the
/// words, is printed as its refusal, and of the words their first fault is told on standard error.
pub fn order_reply(text: &[u8], words: &[&str], alloc: Global) -> Result<Reply, AllocError>
    ensures { IfOk result (RepliesTo text.now words.now) }
{
    match round_of(text) {
        Ok(round) => reply_on(&round, words, alloc),
        Err(refusal) => refused(alloc, &refusal),
    }
}
