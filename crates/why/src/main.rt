//! Why a text is refused, or why its round may have no order: says in plain words what is wrong with a round's text and what to
//! write, or what the round holds. The text comes in a file or on standard input.
#![tactic(auto)]

use std::process::ExitCode;

fn main(rt: HostRuntime) -> anyhow::Result<ExitCode> {
    let words = cli::usage::words(&rt)?;
    Ok(why_command::why::why_program(&rt, words.as_slice())?.into())
}
