//! Where a text is at fault, and what is wrong.
use std::fmt;
use text::fault::{Due, Fault, Found};
use text::refusal::Refusal;

/// Where: a field of a line, a line, or the text as a whole.
#[derive(Clone, Copy)]
pub(crate) struct WhereWords(pub(crate) Refusal);

impl fmt::Display for WhereWords {
    ghost use Rattle.std.specs.Prelude.{Some};
    ghost use Rattle.advice.specs.Wrong.{where_text};

    ghost output = { λ words. Some (where_text words.0) };

    fn fmt<W: fmt::Write>(&self, f: &mut fmt::Formatter<W>) -> fmt::Result {
        match self.0 {
            Refusal::NotDue { line } | Refusal::FieldCount { line } | Refusal::Unended { line } =>
                write!(f, "line {line}"),
            Refusal::NotNumber { line, field }
            | Refusal::OutOfRange { line, field }
            | Refusal::OutOfTurn { line, field }
            | Refusal::SecondKeeper { line, field } => write!(f, "line {line}, field {field}"),
            Refusal::TooLong => write!(f, "the text"),
        }
    }
}

/// What is wrong where another kind of line is due.
#[derive(Clone, Copy)]
struct NotDueWords<'a>(Found<'a>);

impl fmt::Display for NotDueWords<'_> {
    ghost use Rattle.std.specs.Prelude.{Some};
    ghost use Rattle.advice.specs.Wrong.{not_due_text};

    ghost output = { λ words. Some (not_due_text words.0) };

    fn fmt<W: fmt::Write>(&self, f: &mut fmt::Formatter<W>) -> fmt::Result {
        match self.0 {
            Found::End => write!(f, "the text ends too early"),
            _ => write!(f, "another kind of line is expected here"),
        }
    }
}

/// What is wrong with a field that is no number, or no dash where one is due.
#[derive(Clone, Copy)]
struct NotNumberWords(Due);

impl fmt::Display for NotNumberWords {
    ghost use Rattle.std.specs.Prelude.{Some};
    ghost use Rattle.advice.specs.Wrong.{not_number_text};

    ghost output = { λ words. Some (not_number_text words.0) };

    fn fmt<W: fmt::Write>(&self, f: &mut fmt::Formatter<W>) -> fmt::Result {
        match self.0 {
            Due::Dash(_) => write!(f, "not a \"-\""),
            _ => write!(f, "not a number"),
        }
    }
}

/// What is wrong with a number that is out of turn.
#[derive(Clone, Copy)]
struct OutOfTurnWords(Due);

impl fmt::Display for OutOfTurnWords {
    ghost use Rattle.std.specs.Prelude.{Some};
    ghost use Rattle.advice.specs.Wrong.{out_of_turn_text};

    ghost output = { λ words. Some (out_of_turn_text words.0) };

    fn fmt<W: fmt::Write>(&self, f: &mut fmt::Formatter<W>) -> fmt::Result {
        match self.0 {
            Due::OtherDoor { .. } => write!(f, "a door paired with itself"),
            _ => write!(f, "out of turn"),
        }
    }
}

/// What is wrong.
#[derive(Clone, Copy)]
pub(crate) struct WrongWords<'a>(pub(crate) Fault<'a>);

impl fmt::Display for WrongWords<'_> {
    ghost use Rattle.std.specs.Prelude.{Some};
    ghost use Rattle.advice.specs.Wrong.{wrong_text};

    ghost output = { λ words. Some (wrong_text words.0.refusal words.0.due words.0.found) };

    fn fmt<W: fmt::Write>(&self, f: &mut fmt::Formatter<W>) -> fmt::Result {
        let Fault { due, found, .. } = self.0;
        match self.0.refusal {
            Refusal::NotDue { .. } => NotDueWords(found).fmt(f),
            Refusal::FieldCount { .. } => write!(f, "wrong number of fields"),
            Refusal::NotNumber { .. } => NotNumberWords(due).fmt(f),
            Refusal::OutOfRange { .. } => write!(f, "out of range"),
            Refusal::OutOfTurn { .. } => OutOfTurnWords(due).fmt(f),
            Refusal::Unended { .. } => write!(f, "no line feed ends the line"),
            Refusal::TooLong => write!(f, "too long"),
            Refusal::SecondKeeper { .. } => write!(f, "the door has a keeper already"),
        }
    }
}
