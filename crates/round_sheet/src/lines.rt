//! The text of a sheet, line by line.
use crate::sheet::Sheet;
use doors::{DoorSet, contains};
use layers::refined::Refined;
use std::fmt;

/// The line of the bound.
#[derive(Clone, Copy)]
struct BoundLine(Option<(u32, u32)>);

impl fmt::Display for BoundLine {
    ghost use Rattle.std.specs.Prelude.{Some};
    ghost use Rattle.round_sheet.specs.Texts.{bound_line};

    ghost output = { λ line. Some (bound_line line.0) };

    fn fmt<W: fmt::Write>(&self, f: &mut fmt::Formatter<W>) -> fmt::Result {
        match self.0 {
            Some((doors, minutes)) => writeln!(f, "bound\t{doors}\t{minutes}"),
            None => writeln!(f, "bound\tnone"),
        }
    }
}

/// The line of what refine answered.
#[derive(Clone, Copy)]
struct RefineLine(Refined);

impl fmt::Display for RefineLine {
    ghost use Rattle.std.specs.Prelude.{Some};
    ghost use Rattle.round_sheet.specs.Texts.{refine_line};

    ghost output = { λ line. Some (refine_line line.0) };

    fn fmt<W: fmt::Write>(&self, f: &mut fmt::Formatter<W>) -> fmt::Result {
        match self.0 {
            Refined::Whole => writeln!(f, "refine\twhole"),
            Refined::Full(layer) => writeln!(f, "refine\tfull\t{layer}"),
        }
    }
}

/// The lines of the doors that have to come behind one door.
#[derive(Clone, Copy)]
struct LinesBehind {
    door: usize,
    behind: DoorSet,
}

impl fmt::Display for LinesBehind {
    ghost use Rattle.std.specs.Prelude.{Some};
    ghost use Rattle.round_sheet.specs.Texts.{lines_behind};

    ghost output = { λ lines. Some (lines_behind lines.door lines.behind 16) };

    fn fmt<W: fmt::Write>(&self, f: &mut fmt::Formatter<W>) -> fmt::Result {
        let i = self.door;
        for j in 1..17usize {
            if contains(self.behind, j) {
                writeln!(f, "must\t{i}\t{j}")?;
            }
        }
        Ok(())
    }
}

/// The bound, what refine answered, and a line for each must, by first, then by second door; a line feed ends each line.
impl fmt::Display for Sheet {
    ghost use Rattle.std.specs.Prelude.{Some};
    ghost use Rattle.round_sheet.specs.Texts.{sheet_text};

    ghost output = { λ sheet. Some (sheet_text sheet.bound sheet.refined sheet.musts) };

    fn fmt<W: fmt::Write>(&self, f: &mut fmt::Formatter<W>) -> fmt::Result {
        let (bound, refined) = (BoundLine(self.bound), RefineLine(self.refined));
        write!(f, "{bound}{refined}")?;
        for door in 1..17 {
            let lines = LinesBehind {
                door,
                behind: self.musts[door],
            };
            write!(f, "{lines}")?;
        }
        Ok(())
    }
}
