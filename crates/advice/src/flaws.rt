//! Flaws that the bytes of a field show, and what to do about them.
use std::fmt;
use text::fault::Due;
use text::flaw::Flaw;

/// What is said where nothing stands in a field.
#[derive(Clone, Copy)]
struct EmptyWords(Due);

impl fmt::Display for EmptyWords {
    ghost use Rattle.std.specs.Prelude.{Some};
    ghost use Rattle.advice.specs.Flaws.{empty_text};

    ghost output = { λ words. Some (empty_text words.0) };

    fn fmt<W: fmt::Write>(&self, f: &mut fmt::Formatter<W>) -> fmt::Result {
        match self.0 {
            Due::Line(_) => write!(f, "an empty line, or a tab at the start of the line"),
            Due::Fields { .. } => write!(
                f,
                "an empty field (two tabs in a row, or a tab at the end of the line)"
            ),
            _ => write!(f, "nothing stands in the field"),
        }
    }
}

/// What is said where a blank stands in a field.
#[derive(Clone, Copy)]
struct BlankWords(Due);

impl fmt::Display for BlankWords {
    ghost use Rattle.std.specs.Prelude.{Some};
    ghost use Rattle.advice.specs.Flaws.{blank_text};

    ghost output = { λ words. Some (blank_text words.0) };

    fn fmt<W: fmt::Write>(&self, f: &mut fmt::Formatter<W>) -> fmt::Result {
        match self.0 {
            Due::Line(_) | Due::Fields { .. } => write!(
                f,
                "a blank, where tabs stand between fields"
            ),
            _ => write!(f, "a blank in the field"),
        }
    }
}

/// What the flaw is, by what is due.
#[derive(Clone, Copy)]
struct FlawWords {
    flaw: Flaw,
    due: Due,
}

impl fmt::Display for FlawWords {
    ghost use Rattle.std.specs.Prelude.{Some};
    ghost use Rattle.advice.specs.Flaws.{flaw_text};

    ghost output = { λ words. Some (flaw_text words.due words.flaw) };

    fn fmt<W: fmt::Write>(&self, f: &mut fmt::Formatter<W>) -> fmt::Result {
        match self.flaw {
            Flaw::ByteOrderMark => write!(f, "a byte order mark (\\xef\\xbb\\xbf)"),
            Flaw::Utf16 => write!(f, "the text is in UTF-16, or is no text"),
            Flaw::CarriageReturn => write!(
                f,
                "a carriage return (\\r), which belongs to line ends of another system"
            ),
            Flaw::Blank => BlankWords(self.due).fmt(f),
            Flaw::NotAscii => write!(
                f,
                "a byte that is no ASCII (a minus, a blank or a letter of another kind)"
            ),
            Flaw::Empty => EmptyWords(self.due).fmt(f),
            Flaw::LeadingZero => write!(f, "a zero in front of another digit"),
            Flaw::Sign => write!(f, "a sign in front"),
            Flaw::Point => write!(f, "a point or a comma"),
            Flaw::Capital => write!(f, "a capital letter"),
        }
    }
}

/// What to do where nothing stands in a field.
#[derive(Clone, Copy)]
struct EmptyFix(Due);

impl fmt::Display for EmptyFix {
    ghost use Rattle.std.specs.Prelude.{Some};
    ghost use Rattle.advice.specs.Flaws.{empty_fix};

    ghost output = { λ fix. Some (empty_fix fix.0) };

    fn fmt<W: fmt::Write>(&self, f: &mut fmt::Formatter<W>) -> fmt::Result {
        match self.0 {
            Due::Line(_) => write!(f, "take out the empty line, or the tab at its start"),
            Due::Fields { .. } => write!(
                f,
                "put one tab between each two fields, and none at the end of the line"
            ),
            _ => write!(
                f,
                "write it there, or take out the tab in front of it if that is one too many"
            ),
        }
    }
}

/// What to do where a blank stands in a field.
#[derive(Clone, Copy)]
struct BlankFix(Due);

impl fmt::Display for BlankFix {
    ghost use Rattle.std.specs.Prelude.{Some};
    ghost use Rattle.advice.specs.Flaws.{blank_fix};

    ghost output = { λ fix. Some (blank_fix fix.0) };

    fn fmt<W: fmt::Write>(&self, f: &mut fmt::Formatter<W>) -> fmt::Result {
        match self.0 {
            Due::Line(_) | Due::Fields { .. } => write!(
                f,
                "put a tab between each two fields, and no blank anywhere"
            ),
            _ => write!(f, "take out the blank"),
        }
    }
}

/// What to do about the form of a line's kind.
#[derive(Clone, Copy)]
struct KindFix(Flaw);

impl fmt::Display for KindFix {
    ghost use Rattle.std.specs.Prelude.{Some};
    ghost use Rattle.advice.specs.Flaws.{kind_fix};

    ghost output = { λ fix. Some (kind_fix fix.0) };

    fn fmt<W: fmt::Write>(&self, f: &mut fmt::Formatter<W>) -> fmt::Result {
        match self.0 {
            Flaw::NotAscii => write!(f, "write plain letters, digits, \"-\" and tabs alone"),
            Flaw::Point => write!(f, "put tabs between the fields, with no point and no comma"),
            _ => write!(
                f,
                "begin the line with the word for its kind, in small letters"
            ),
        }
    }
}

/// What to do about what is no digit in a number.
#[derive(Clone, Copy)]
struct DigitsFix(Due);

impl fmt::Display for DigitsFix {
    ghost use Rattle.std.specs.Prelude.{Some};
    ghost use Rattle.advice.specs.Flaws.{digits_fix};

    ghost output = { λ fix. Some (digits_fix fix.0) };

    fn fmt<W: fmt::Write>(&self, f: &mut fmt::Formatter<W>) -> fmt::Result {
        match self.0 {
            Due::Change(_) => write!(
                f,
                "write plain digits alone, with a plain \"-\" in front if the number is below 0"
            ),
            _ => write!(f, "write plain digits alone"),
        }
    }
}

/// What to do about a number's form.
#[derive(Clone, Copy)]
struct NumberFix {
    flaw: Flaw,
    due: Due,
}

impl fmt::Display for NumberFix {
    ghost use Rattle.std.specs.Prelude.{Some};
    ghost use Rattle.advice.specs.Flaws.{number_fix};

    ghost output = { λ fix. Some (number_fix fix.due fix.flaw) };

    fn fmt<W: fmt::Write>(&self, f: &mut fmt::Formatter<W>) -> fmt::Result {
        match self.flaw {
            Flaw::LeadingZero => write!(f, "leave out every zero in front of the number"),
            Flaw::Sign => write!(f, "leave out the sign"),
            Flaw::Point => write!(f, "write a whole number, with no point and no comma"),
            _ => DigitsFix(self.due).fmt(f),
        }
    }
}

/// What to do about the form of what stands there, by what is due.
#[derive(Clone, Copy)]
struct FormFix {
    flaw: Flaw,
    due: Due,
}

impl fmt::Display for FormFix {
    ghost use Rattle.std.specs.Prelude.{Some};
    ghost use Rattle.advice.specs.Flaws.{form_fix};

    ghost output = { λ fix. Some (form_fix fix.due fix.flaw) };

    fn fmt<W: fmt::Write>(&self, f: &mut fmt::Formatter<W>) -> fmt::Result {
        let FormFix { flaw, due } = *self;
        match due {
            Due::Line(_) => KindFix(flaw).fmt(f),
            Due::Dash(_) => write!(f, "write a plain \"-\" alone"),
            _ => NumberFix { flaw, due }.fmt(f),
        }
    }
}

/// What to do about the flaw, by what is due.
#[derive(Clone, Copy)]
struct FixWords {
    flaw: Flaw,
    due: Due,
}

impl fmt::Display for FixWords {
    ghost use Rattle.std.specs.Prelude.{Some};
    ghost use Rattle.advice.specs.Flaws.{fix_text};

    ghost output = { λ words. Some (fix_text words.due words.flaw) };

    fn fmt<W: fmt::Write>(&self, f: &mut fmt::Formatter<W>) -> fmt::Result {
        let FixWords { flaw, due } = *self;
        match flaw {
            Flaw::ByteOrderMark => write!(
                f,
                "take it out; at the start of a text, save it as UTF-8 without a byte order mark"
            ),
            Flaw::Utf16 => write!(f, "save the text as UTF-8 without a byte order mark"),
            Flaw::CarriageReturn => write!(
                f,
                "save the text with Unix line ends, so that a line feed alone ends each line"
            ),
            Flaw::Blank => BlankFix(due).fmt(f),
            Flaw::Empty => EmptyFix(due).fmt(f),
            Flaw::NotAscii | Flaw::LeadingZero | Flaw::Sign | Flaw::Point | Flaw::Capital =>
                FormFix { flaw, due }.fmt(f),
        }
    }
}

/// The lines that tell of the flaw, if there is one.
#[derive(Clone, Copy)]
pub(crate) struct FlawLines {
    pub(crate) flaw: Option<Flaw>,
    pub(crate) due: Due,
}

impl fmt::Display for FlawLines {
    ghost use Rattle.std.specs.Prelude.{Some};
    ghost use Rattle.advice.specs.Flaws.{flaw_lines};

    ghost output = { λ lines. Some (flaw_lines lines.due lines.flaw) };

    fn fmt<W: fmt::Write>(&self, f: &mut fmt::Formatter<W>) -> fmt::Result {
        let due = self.due;
        match self.flaw {
            Some(flaw) => {
                let (what, fix) = (FlawWords { flaw, due }, FixWords { flaw, due });
                write!(f, "flaw: {what}\nfix: {fix}\n")
            }
            None => Ok(()),
        }
    }
}
