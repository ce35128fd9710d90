//! The texts of rounds that a check goes over.
use anyhow::anyhow;
use round::table::Round;
use std::alloc::{AllocError, Global};
use text::reading::read_bounded;

/// The parts of a text, each up to an empty line, with the line feeds of their lines. What follows the last empty line is in none.
pub(crate) fn parts_of(alloc: Global, text: &str) -> Result<Vec<String>, AllocError> {
    let mut parts = Vec::new(alloc);
    let mut part = String::new(alloc);
    for line in text.lines() {
        if line.is_empty() {
            parts.push(part)?;
            part = String::new(alloc);
        } else {
            part.push_str(line)?;
            part.push('\n')?;
        }
    }
    Ok(parts)
}

/// The round of a text.
pub(crate) fn round_of(text: &str) -> anyhow::Result<Round> {
    let mut round = Round::fresh();
    match read_bounded(&mut round, text.as_bytes()) {
        Ok(()) => Ok(round),
        Err(refusal) => Err(anyhow!("{refusal}")),
    }
}
