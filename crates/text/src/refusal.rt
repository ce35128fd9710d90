//! Why a text is refused, and where.
ghost use Rattle.std.specs.Prelude.{◌≡◌};
ghost use Rattle.text.specs.Codes.{number_of, line_of, field_of};

use std::error::Error;
use std::fmt;

/// Lines and fields count from 1, and a line's kind is its field 1.
#[derive(Clone, Copy, Debug, PartialEq)]
pub enum Refusal {
    /// a line of this kind may not come here, or the text ends too early
    NotDue { line: usize },
    FieldCount { line: usize },
    NotNumber { line: usize, field: usize },
    OutOfRange { line: usize, field: usize },
    /// not the next door or place, or a door paired with itself
    OutOfTurn { line: usize, field: usize },
    /// no line feed ends the line
    Unended { line: usize },
    TooLong,
    /// the door has a keeper already
    SecondKeeper { line: usize, field: usize },
}

impl Refusal {
    /// The refusal's number.
    pub fn number(self) -> u8
        ensures { result ≡ number_of self }
    {
        match self {
            Refusal::NotDue { .. } => 1,
            Refusal::FieldCount { .. } => 2,
            Refusal::NotNumber { .. } => 3,
            Refusal::OutOfRange { .. } => 4,
            Refusal::OutOfTurn { .. } => 5,
            Refusal::Unended { .. } => 6,
            Refusal::TooLong => 7,
            Refusal::SecondKeeper { .. } => 29,
        }
    }

    /// The line, or 0 where the text as a whole is refused.
    pub fn line(self) -> usize
        ensures { result ≡ line_of self }
    {
        match self {
            Refusal::NotDue { line }
            | Refusal::FieldCount { line }
            | Refusal::NotNumber { line, .. }
            | Refusal::OutOfRange { line, .. }
            | Refusal::OutOfTurn { line, .. }
            | Refusal::Unended { line }
            | Refusal::SecondKeeper { line, .. } => line,
            Refusal::TooLong => 0,
        }
    }

    /// The field, 1 where the line as a whole is refused, and 0 where the text is.
    pub fn field(self) -> usize
        ensures { result ≡ field_of self }
    {
        match self {
            Refusal::NotDue { .. } | Refusal::FieldCount { .. } | Refusal::Unended { .. } => 1,
            Refusal::NotNumber { field, .. }
            | Refusal::OutOfRange { field, .. }
            | Refusal::OutOfTurn { field, .. }
            | Refusal::SecondKeeper { field, .. } => field,
            Refusal::TooLong => 0,
        }
    }
}

/// As the programs print it: its number, line and field, with tabs between.
impl fmt::Display for Refusal {
    ghost use Rattle.std.specs.Prelude.{Some};
    ghost use Rattle.text.specs.Codes.{told};

    ghost output = { λ refusal. Some (told refusal) };

    fn fmt<W: fmt::Write>(&self, f: &mut fmt::Formatter<W>) -> fmt::Result {
        let (number, line, field) = (self.number(), self.line(), self.field());
        write!(f, "refused\t{number}\t{line}\t{field}")
    }
}

impl Error for Refusal {}
