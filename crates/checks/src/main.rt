//! Checks against what another program worked out: sheets of many rounds, calls that are lent the rule and tally of two rounds in
//! turn, and packed calls of every kind. The word `sheets`, `mixed` or `packed` makes one of the three, on standard input; with no
//! word all three are made, each under a line that names it, on files that lie where the program runs.
#![tactic(auto)]

mod mixed;
mod packed_calls;
mod rounds;
mod sheets;

use crate::mixed::print_cases;
use crate::packed_calls::print_calls;
use crate::sheets::print_sheets;
use anyhow::anyhow;
use std::{env, fs, io};

/// Makes the check that the word names.
fn check(rt: &HostRuntime, word: &str, text: &str) -> anyhow::Result<()> {
    match word {
        "sheets" => print_sheets(rt, text),
        "mixed" => print_cases(rt, text),
        "packed" => print_calls(rt, text.as_bytes()),
        _ => Err(anyhow!("no check {word}: there are sheets, mixed and packed")),
    }
}

fn main(rt: HostRuntime) -> anyhow::Result<()> {
    if let Some(word) = env::args(&rt)?.nth(1) {
        return check(&rt, &word, &io::read_to_string(rt.alloc(), rt.stdin())?);
    }
    for word in ["sheets", "mixed", "packed"] {
        println!(rt; "$ checks {word} < {word}.txt")?;
        let file = format!(in rt.alloc(); "{word}.txt")?;
        check(&rt, word, &fs::read_to_string(&rt, file)?)?;
    }
    Ok(())
}
