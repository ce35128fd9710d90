//! The program `why`: what is wrong with a text that is refused, or what the round of a text holds.
use crate::reply::why_reply;
use clap::Command;
use cli::input::text_in;
use cli::output::{Status, print};
use cli::usage::{file_argument, matched, program};
use std::alloc::{AllocError, Global};

/// What the program takes.
fn command<'a>(alloc: Global) -> Result<Command<'a>, AllocError> {
    let about =
        "Prints in plain words what is wrong with a round's text, or what the round holds that may rule out every order";
    program(alloc, "why", about)?.arg(file_argument(alloc))
}

/// Reads a text, and prints what is wrong with it, with status 1, or what its round holds. Words that the program does not take
/// end it with status 2, and a text that cannot be read with 3; both are told on standard error.
pub fn why_program(rt: &HostRuntime, words: &[String]) -> anyhow::Result<Status> {
    let matches = match matched(rt, command(rt.alloc())?, words)? {
        Ok(matches) => matches,
        Err(status) => return Ok(status),
    };
    match text_in(rt, matches.get_str("file"))? {
        Ok(text) => print(rt, &why_reply(text.as_slice(), rt.alloc())?),
        Err(status) => Ok(status),
    }
}
