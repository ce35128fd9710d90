//! The program `order`: what is said of one order of a round's doors.
use crate::reply::order_reply;
use clap::{Arg, Command};
use cli::input::text_in;
use cli::output::{Status, print};
use cli::usage::{file_argument, matched, program};
use std::alloc::{AllocError, Global};

/// What the program takes.
fn command<'a>(alloc: Global) -> Result<Command<'a>, AllocError> {
    let about =
        "Says of an order of a round's doors when each is finished, whether it is allowed, and what it costs";
    let doors = Arg::new(alloc, "door")
        .value_name("DOOR")
        .num_args(1..)
        .required(true)
        .help("The round's doors, 1 to n, each once, in the order in which they are visited");
    program(alloc, "order", about)?
        .arg(doors)?
        .arg(file_argument(alloc).long("round"))
}

/// Reads a round, and reports on the order of its doors that the words name. What is refused, the text or the order, is printed
/// as its refusal, with status 1, and of an order it is told on standard error what is wrong with it. Words that the program does
/// not take end it with status 2, and a text that cannot be read with 3; both are told on standard error.
pub fn order_program(rt: &HostRuntime, words: &[String]) -> anyhow::Result<Status> {
    let matches = match matched(rt, command(rt.alloc())?, words)? {
        Ok(matches) => matches,
        Err(status) => return Ok(status),
    };
    let text = match text_in(rt, matches.get_str("file"))? {
        Ok(text) => text,
        Err(status) => return Ok(status),
    };
    let doors = matches.get_strs("door").unwrap_or_default();
    print(rt, &order_reply(text.as_slice(), doors, rt.alloc())?)
}
