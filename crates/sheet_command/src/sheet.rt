//! The program `sheet`: what a round's diagram of its side rules and late doors says once it is refined.
use crate::reply::sheet_reply;
use clap::Command;
use cli::input::text_in;
use cli::output::{Status, print};
use cli::usage::{file_argument, matched, program};
use round_sheet::sheet::{Place, RECORDS};
use std::alloc::{AllocError, Global};

/// What the program takes.
fn command<'a>(alloc: Global) -> Result<Command<'a>, AllocError> {
    let about =
        "Says how late any allowed order of a round is at least, and which doors always come ahead of which";
    program(alloc, "sheet", about)?.arg(file_argument(alloc))
}

/// Reads a text, and prints the sheet of its round, which is made over the lent records. A text that is refused is printed as
/// its refusal, with status 1. Words that the program does not take end it with status 2, and a text that cannot be read with
/// 3; both are told on standard error.
pub fn sheet_program(
    rt: &HostRuntime,
    words: &[String],
    records: &mut [Place; RECORDS],
) -> anyhow::Result<Status> {
    let matches = match matched(rt, command(rt.alloc())?, words)? {
        Ok(matches) => matches,
        Err(status) => return Ok(status),
    };
    match text_in(rt, matches.get_str("file"))? {
        Ok(text) => print(rt, &sheet_reply(text.as_slice(), records, rt.alloc())?),
        Err(status) => Ok(status),
    }
}
