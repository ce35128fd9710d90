//! Runs the command lines of the file `lines.txt` in turn: each program with its words, wrong ones among them, then on rounds and on
//! texts that are refused. A blank stands between two words; the first line that names no file reads standard input. All files lie
//! where it runs. After what each prints stands the status that the program would end with.
#![tactic(auto)]

use cli::output::Status;
use order_command::order::order_program;
use round_sheet::sheet::EMPTY;
use sheet_command::sheet::sheet_program;
use std::alloc::AllocError;
use std::fs;
use view_command::view::view_program;
use why_command::why::why_program;

/// The words of a command line.
fn words_of(rt: &HostRuntime, line: &str) -> Result<Vec<String>, AllocError> {
    let mut words = Vec::new(rt.alloc());
    for word in line.split(' ') {
        words.push(word.to_string(rt.alloc())?)?;
    }
    Ok(words)
}

/// Runs the program that the first word names.
fn run(rt: &HostRuntime, words: &[String]) -> anyhow::Result<Status> {
    let mut records = [EMPTY; 257];
    match words.first().map(String::as_str) {
        Some("sheet") => sheet_program(rt, words, &mut records),
        Some("order") => order_program(rt, words),
        Some("why") => why_program(rt, words),
        _ => view_program(rt, words, &mut records),
    }
}

/// Prints a command line, then what its program prints, and the status that the program would end with.
fn show(rt: &HostRuntime, line: &str) -> anyhow::Result<()> {
    println!(rt; "$ {line}")?;
    let words = words_of(rt, line)?;
    let status = run(rt, words.as_slice())?.number();
    Ok(println!(rt; "status {status}")?)
}

fn main(rt: HostRuntime) -> anyhow::Result<()> {
    let lines = fs::read_to_string(&rt, "lines.txt")?;
    for line in lines.as_str().lines() {
        show(&rt, line)?;
    }
    Ok(())
}
