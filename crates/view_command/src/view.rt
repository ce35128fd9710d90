//! The program `view`: a round's refined diagram as a picture, or one of its layers as a table.
use crate::reply::view_reply;
use clap::{Arg, Command};
use cli::input::text_in;
use cli::output::{Status, print};
use cli::usage::{file_argument, matched, no_number, number, program};
use round_sheet::sheet::{Place, RECORDS};
use std::alloc::{AllocError, Global};

/// What the program takes.
fn command<'a>(alloc: Global) -> Result<Command<'a>, AllocError> {
    let about =
        "Prints the refined diagram of a round in the DOT language, or one of its layers as a table";
    let layer = Arg::new(alloc, "layer")
        .long("layer")
        .value_name("I")
        .help("Print only layer I, as a table: 0 to the number of doors");
    program(alloc, "view", about)?
        .arg(layer)?
        .arg(file_argument(alloc))
}

/// Reads a round, and prints the diagram that is made of it over the lent records, or the layer that the words ask for. What is
/// refused, the text or the layer, is printed as its refusal, with status 1. Words that the program does not take end it with
/// status 2, and a text that cannot be read with 3; both are told on standard error.
pub fn view_program(
    rt: &HostRuntime,
    words: &[String],
    records: &mut [Place; RECORDS],
) -> anyhow::Result<Status> {
    let matches = match matched(rt, command(rt.alloc())?, words)? {
        Ok(matches) => matches,
        Err(status) => return Ok(status),
    };
    let layer = match matches.get_str("layer") {
        None => None,
        Some(word) => match number(word) {
            Some(layer) => Some(layer),
            None => return no_number(rt, "--layer <I>", word),
        },
    };
    match text_in(rt, matches.get_str("file"))? {
        Ok(text) => print(
            rt,
            &view_reply(text.as_slice(), layer, records, rt.alloc())?,
        ),
        Err(status) => Ok(status),
    }
}
