//! The view: reads a round's text in a file or on standard input, opens its diagram, refines it, and prints it in the DOT
//! language, or one of its layers as a table.
#![tactic(auto)]

use cli::usage::words;
use round_sheet::sheet::EMPTY;
use std::process::ExitCode;
use view_command::view::view_program;

fn main(rt: HostRuntime) -> anyhow::Result<ExitCode> {
    let mut records = [EMPTY; 257];
    let words = words(&rt)?;
    Ok(view_program(&rt, words.as_slice(), &mut records)?.into())
}
