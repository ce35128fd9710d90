//! Says of one order of a round's doors when each door finishes, whether the order is allowed, and what it costs.
//! The doors come as arguments, and the round's text in a file or on standard input.
#![tactic(auto)]

use cli::usage::words;
use order_command::order::order_program;
use std::process::ExitCode;

fn main(rt: HostRuntime) -> anyhow::Result<ExitCode> {
    let words = words(&rt)?;
    Ok(order_program(&rt, words.as_slice())?.into())
}
