//! The words that a program is started with.
ghost use Rattle.std.specs.Prelude.{◌≡◌, ◌↔◌, min, true, IsSome, IfSome};
ghost use Rattle.std.specs.Str.Parse.{digits_value};
ghost use Rattle.text.specs.Number.{plain, positive};

use crate::output::Status;
use clap::error::ErrorKind;
use clap::{Arg, ArgMatches, Command, Error};
use std::alloc::{AllocError, Global};
use std::env;

/// The version of all programs.
pub const VERSION: &str = "1.0.0";

/// What the help of each program ends with.
const STATUSES: &str = "\
Exit status:
  0  an answer, or this help
  1  the text, or what is asked of it, is refused
  2  the arguments are not as above
  3  a file or standard input cannot be read";

/// A program with its version, and what it is for. In its texts it has this name, also where its file has another.
pub fn program<'a>(
    alloc: Global,
    name: &'a str,
    about: &'a str,
) -> Result<Command<'a>, AllocError> {
    Command::new(alloc, name)
        .version(VERSION)
        .about(about)
        .after_help(STATUSES)
        .bin_name(name)
}

/// The argument that names the file with the round's text.
pub fn file_argument<'a>(alloc: Global) -> Arg<'a> {
    Arg::new(alloc, "file").value_name("FILE").help(
        "File with the round's text; standard input if none is named",
    )
}

/// The words that the program was started with, its own name first.
pub fn words(rt: &HostRuntime) -> anyhow::Result<Vec<String>> {
    Ok(env::args(rt)?.collect(rt.alloc())?)
}

/// Whether the bytes are digits, the first not 0.
fn is_positive(bytes: &[u8]) -> bool
    ensures { result ≡ positive bytes.now }
{
    match bytes {
        [b'1'..=b'9', rest @ ..] => rest.iter().all(u8::is_ascii_digit),
        _ => false,
    }
}

/// The number that a word writes in digits, with no leading zero. One that is too large for the machine is the largest that
/// fits.
pub fn number(word: &str) -> Option<usize>
    ensures plain { IsSome result ↔ (plain word.now ≡ true) }
    ensures value { IfSome result (λ k. k ≡ min usize.MAX (digits_value 10 word.now)) }
{
    if word == "0" || is_positive(word.as_bytes()) {
        Some(word.parse().unwrap_or(usize::MAX))
    } else {
        None
    }
}

/// Tells what is wrong with the words, on standard error and with status 2, or prints the help that they ask for.
fn explained(rt: &HostRuntime, error: Error) -> anyhow::Result<Status> {
    if error.kind() == ErrorKind::OutOfMemory {
        return Err(error.into());
    }
    error.print(rt)?;
    Ok(if error.use_stderr() {
        Status::Misused
    } else {
        Status::Answered
    })
}

/// What the words are, by what the program takes; or, once it is told what is wrong with them or the help is printed, the status to
/// end with.
pub fn matched<'a>(
    rt: &HostRuntime,
    program: Command<'a>,
    words: &'a [String],
) -> anyhow::Result<Result<ArgMatches<'a>, Status>> {
    match program.try_get_matches_from(words) {
        Ok(matches) => Ok(Ok(matches)),
        Err(error) => Ok(Err(explained(rt, error)?)),
    }
}

/// Tells on standard error that a word is no number, as it has to be for this argument, with status 2.
pub fn no_number(rt: &HostRuntime, argument: &str, word: &str) -> anyhow::Result<Status> {
    eprintln!(rt;
        "error: invalid value '{word}' for '{argument}': not a number in digits with no leading zero"
    )?;
    eprintln!(rt; "\nFor more information, try '--help'.")?;
    Ok(Status::Misused)
}
