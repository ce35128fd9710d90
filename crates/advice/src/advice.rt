//! The lines that tell of a fault.
use crate::expected::ExpectedWords;
use crate::flaws::FlawLines;
use crate::found::FoundWords;
use crate::write::WriteLines;
use crate::wrong::{WhereWords, WrongWords};
use std::fmt;
use text::fault::Fault;

/// The refusal, and where and what is wrong.
#[derive(Clone, Copy)]
struct WrongLines<'a>(Fault<'a>);

impl fmt::Display for WrongLines<'_> {
    ghost use Rattle.std.specs.Prelude.{Some};
    ghost use Rattle.advice.specs.Advices.{wrong_lines};

    ghost output = { λ lines. Some (wrong_lines lines.0) };

    fn fmt<W: fmt::Write>(&self, f: &mut fmt::Formatter<W>) -> fmt::Result {
        let refusal = self.0.refusal;
        let (place, wrong) = (WhereWords(refusal), WrongWords(self.0));
        write!(f, "{refusal}\n{place}: {wrong}\n")
    }
}

/// What is expected there, and what is found.
#[derive(Clone, Copy)]
struct FoundLines<'a>(Fault<'a>);

impl fmt::Display for FoundLines<'_> {
    ghost use Rattle.std.specs.Prelude.{Some};
    ghost use Rattle.advice.specs.Advices.{found_lines};

    ghost output = { λ lines. Some (found_lines lines.0) };

    fn fmt<W: fmt::Write>(&self, f: &mut fmt::Formatter<W>) -> fmt::Result {
        let (expected, found) = (ExpectedWords(self.0.due), FoundWords(self.0.found));
        write!(f, "expected: {expected}\nfound: {found}\n")
    }
}

/// A fault in plain words: the refusal, then where and what is wrong, what is expected there and what is found, the flaw that
/// the bytes show, if they show one, and what to write. A line feed ends each line.
#[derive(Clone, Copy)]
pub struct Advice<'a>(pub Fault<'a>);

impl fmt::Display for Advice<'_> {
    ghost use Rattle.std.specs.Prelude.{Some};
    ghost use Rattle.advice.specs.Advices.{advice_text};

    ghost output = { λ advice. Some (advice_text advice.0) };

    fn fmt<W: fmt::Write>(&self, f: &mut fmt::Formatter<W>) -> fmt::Result {
        let fault = self.0;
        let (wrong, found) = (WrongLines(fault), FoundLines(fault));
        let Fault { flaw, due, .. } = fault;
        let (flaw, write) = (FlawLines { flaw, due }, WriteLines(due));
        write!(f, "{wrong}{found}{flaw}{write}")
    }
}
