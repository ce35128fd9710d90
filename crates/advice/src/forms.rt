//! Lines that may be written, set out so that they can be copied: a word in capitals stands for a number.
use std::fmt;
use text::kind::Kind;
use text::stage::Stage;

/// What to write where a line is missing.
#[derive(Clone, Copy)]
pub(crate) struct StageForm(pub(crate) Stage);

impl fmt::Display for StageForm {
    ghost use Rattle.std.specs.Prelude.{Some};
    ghost use Rattle.advice.specs.Forms.{stage_form};

    ghost output = { λ form. Some (stage_form form.0) };

    fn fmt<W: fmt::Write>(&self, f: &mut fmt::Formatter<W>) -> fmt::Result {
        match self.0 {
            Stage::Head => KindForm(Kind::Round).fmt(f),
            Stage::Doors(_) => KindForm(Kind::Door).fmt(f),
            Stage::Drives(place) => DrivesForm(place).fmt(f),
            Stage::Pairs => write!(
                f,
                "nothing more, or one of the lines below, with tabs between the fields and numbers for the words in capitals"
            ),
            Stage::Keepers => {
                let form = KindForm(Kind::Keeper);
                write!(f, "nothing more, or {form}")
            }
        }
    }
}

/// What to write where the drives from a place are missing.
#[derive(Clone, Copy)]
struct DrivesForm(u16);

impl fmt::Display for DrivesForm {
    ghost use Rattle.std.specs.Prelude.{Some};
    ghost use Rattle.advice.specs.Forms.{drives_form};

    ghost output = { λ form. Some (drives_form form.0) };

    fn fmt<W: fmt::Write>(&self, f: &mut fmt::Formatter<W>) -> fmt::Result {
        match self.0 {
            0 => write!(
                f,
                "the line below, with tabs between the fields, and for \"..\" the minutes to each further door in turn"
            ),
            door => write!(
                f,
                "the line below, with tabs between the fields, \"-\" for door {door} itself, \
                 and for \"..\" the minutes to each further door in turn"
            ),
        }
    }
}

/// The lines that may stand there.
#[derive(Clone, Copy)]
pub(crate) struct StageLines(pub(crate) Stage);

impl fmt::Display for StageLines {
    ghost use Rattle.std.specs.Prelude.{Some};
    ghost use Rattle.advice.specs.Forms.{stage_lines};

    ghost output = { λ lines. Some (stage_lines lines.0) };

    fn fmt<W: fmt::Write>(&self, f: &mut fmt::Formatter<W>) -> fmt::Result {
        match self.0 {
            Stage::Head => KindLines(Kind::Round).fmt(f),
            Stage::Doors(door) => write!(
                f,
                "line: door\t{door}\tOPENS\tCLOSES\tDUE\tWORK\tCHANGE\n"
            ),
            Stage::Drives(place) => write!(f, "line: drive\t{place}\tMINUTES\t..\n"),
            Stage::Pairs => {
                let (pair, keeper) = (KindLines(Kind::First), KindLines(Kind::Keeper));
                write!(f, "{pair}{keeper}")
            }
            Stage::Keepers => KindLines(Kind::Keeper).fmt(f),
        }
    }
}

/// What to write where a line has too few fields or too many.
#[derive(Clone, Copy)]
pub(crate) struct KindForm(pub(crate) Kind);

impl fmt::Display for KindForm {
    ghost use Rattle.std.specs.Prelude.{Some};
    ghost use Rattle.advice.specs.Forms.{kind_form};

    ghost output = { λ form. Some (kind_form form.0) };

    fn fmt<W: fmt::Write>(&self, f: &mut fmt::Formatter<W>) -> fmt::Result {
        match self.0 {
            Kind::Round => write!(
                f,
                "one of the lines below, with tabs between the fields and numbers for the words in capitals"
            ),
            Kind::Drive => write!(
                f,
                "the line below, with tabs between the fields, \"-\" for the place itself, \
                 and for \"..\" the minutes to each further door in turn"
            ),
            // a line with a wrong count of fields is always of a kind
            Kind::Other => write!(f, "so many fields, with tabs between them"),
            _ => write!(
                f,
                "the line below, with tabs between the fields and numbers for the words in capitals"
            ),
        }
    }
}

/// The lines of that kind.
#[derive(Clone, Copy)]
pub(crate) struct KindLines(pub(crate) Kind);

impl fmt::Display for KindLines {
    ghost use Rattle.std.specs.Prelude.{Some};
    ghost use Rattle.advice.specs.Forms.{kind_lines};

    ghost output = { λ lines. Some (kind_lines lines.0) };

    fn fmt<W: fmt::Write>(&self, f: &mut fmt::Formatter<W>) -> fmt::Result {
        match self.0 {
            Kind::Round => write!(
                f,
                "line: round\tDOORS\tLOAD\tCAP\nline: round\tDOORS\tLOAD\tCAP\tGRID\n"
            ),
            Kind::Door => write!(f, "line: door\tNUMBER\tOPENS\tCLOSES\tDUE\tWORK\tCHANGE\n"),
            Kind::Drive => write!(f, "line: drive\tPLACE\tMINUTES\t..\n"),
            Kind::First => write!(f, "line: first\tEARLIER\tLATER\n"),
            Kind::Keeper => write!(f, "line: keeper\tDOOR\tKEEPER\n"),
            // a line with a wrong count of fields is always of a kind
            Kind::Other => Ok(()),
        }
    }
}
