//! The round sheet: reads a round's text in a file or on standard input, opens its diagram, refines it, and prints a cost
//! that no allowed order undercuts, and which doors have to come ahead of which.
#![tactic(auto)]

use cli::usage::words;
use round_sheet::sheet::EMPTY;
use sheet_command::sheet::sheet_program;
use std::process::ExitCode;

fn main(rt: HostRuntime) -> anyhow::Result<ExitCode> {
    let mut records = [EMPTY; 257];
    let words = words(&rt)?;
    Ok(sheet_program(&rt, words.as_slice(), &mut records)?.into())
}
