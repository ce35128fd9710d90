//! What to write where a text is at fault.
use crate::expected::RangeWords;
use crate::forms::{KindForm, KindLines, StageForm, StageLines};
use doors::{DoorSet, contains};
use std::fmt;
use text::fault::{Due, Item};

/// A number from low to high.
#[derive(Clone, Copy)]
struct NumberToWrite {
    low: u16,
    high: u16,
}

impl fmt::Display for NumberToWrite {
    ghost use Rattle.std.specs.Prelude.{Some};
    ghost use Rattle.advice.specs.Write.{number_to_write};

    ghost output = { λ number. Some (number_to_write number.low number.high) };

    fn fmt<W: fmt::Write>(&self, f: &mut fmt::Formatter<W>) -> fmt::Result {
        let NumberToWrite { low, high } = *self;
        if low == high {
            write!(f, "{low}")
        } else {
            let range = RangeWords { low, high };
            write!(f, "{range}, in digits, with no zero in front and no sign")
        }
    }
}

/// The earlier door of a pair, from low to high, which is how many doors there are.
#[derive(Clone, Copy)]
struct FirstToWrite {
    low: u16,
    high: u16,
}

impl fmt::Display for FirstToWrite {
    ghost use Rattle.std.specs.Prelude.{Some};
    ghost use Rattle.advice.specs.Write.{first_to_write};

    ghost output = { λ door. Some (first_to_write door.low door.high) };

    fn fmt<W: fmt::Write>(&self, f: &mut fmt::Formatter<W>) -> fmt::Result {
        let low = self.low;
        match self.high {
            1 => write!(f, "nothing, and take the line out"),
            high => NumberToWrite { low, high }.fmt(f),
        }
    }
}

/// A door from 1 to n other than that one.
#[derive(Clone, Copy)]
struct OtherToWrite {
    than: u16,
    n: u16,
}

impl fmt::Display for OtherToWrite {
    ghost use Rattle.std.specs.Prelude.{Some};
    ghost use Rattle.advice.specs.Write.{other_to_write};

    ghost output = { λ door. Some (other_to_write door.than door.n) };

    fn fmt<W: fmt::Write>(&self, f: &mut fmt::Formatter<W>) -> fmt::Result {
        let than = self.than;
        match self.n {
            1 => write!(f, "nothing, and take the line out"),
            n => write!(f, "a door from 1 to {n} other than {than}"),
        }
    }
}

/// A door behind a blank, if it is in the set.
#[derive(Clone, Copy)]
struct DoorIn {
    set: DoorSet,
    door: usize,
}

impl fmt::Display for DoorIn {
    ghost use Rattle.std.specs.Prelude.{Some};
    ghost use Rattle.advice.specs.Write.{door_in};

    ghost output = { λ one. Some (door_in one.set one.door) };

    fn fmt<W: fmt::Write>(&self, f: &mut fmt::Formatter<W>) -> fmt::Result {
        let door = self.door;
        if contains(self.set, door) {
            write!(f, " {door}")
        } else {
            Ok(())
        }
    }
}

/// The doors 1 to 16 of a set, each behind a blank.
#[derive(Clone, Copy)]
struct DoorsIn(DoorSet);

impl fmt::Display for DoorsIn {
    ghost use Rattle.std.specs.Prelude.{Some};
    ghost use Rattle.advice.specs.Write.{doors_in};

    ghost output = { λ doors. Some (doors_in doors.0 16) };

    fn fmt<W: fmt::Write>(&self, f: &mut fmt::Formatter<W>) -> fmt::Result {
        for door in 1..17usize {
            let one = DoorIn { set: self.0, door };
            write!(f, "{one}")?;
        }
        Ok(())
    }
}

/// A door of those without a keeper line.
#[derive(Clone, Copy)]
struct KeeperlessToWrite(DoorSet);

impl fmt::Display for KeeperlessToWrite {
    ghost use Rattle.std.specs.Prelude.{Some};
    ghost use Rattle.advice.specs.Write.{keeperless_to_write};

    ghost output = { λ free. Some (keeperless_to_write free.0) };

    fn fmt<W: fmt::Write>(&self, f: &mut fmt::Formatter<W>) -> fmt::Result {
        if self.0 == 0 {
            write!(f, "nothing, and take the line out")
        } else {
            let doors = DoorsIn(self.0);
            write!(f, "one of the doors with no keeper line yet:{doors}")
        }
    }
}

/// What would be right there.
#[derive(Clone, Copy)]
struct WriteWords(Due);

impl fmt::Display for WriteWords {
    ghost use Rattle.std.specs.Prelude.{Some};
    ghost use Rattle.advice.specs.Write.{write_text};

    ghost output = { λ words. Some (write_text words.0) };

    fn fmt<W: fmt::Write>(&self, f: &mut fmt::Formatter<W>) -> fmt::Result {
        match self.0 {
            Due::Line(stage) => StageForm(stage).fmt(f),
            Due::Fields { kind, .. } => KindForm(kind).fmt(f),
            Due::Number {
                item: Item::First,
                low,
                high,
            } => FirstToWrite { low, high }.fmt(f),
            Due::Number { low, high, .. } => NumberToWrite { low, high }.fmt(f),
            Due::Change(_) => write!(
                f,
                "a number from -99 to 99, in digits, with no zero in front, and with a minus in front if it is below 0"
            ),
            Due::Dash(_) => write!(f, "-"),
            Due::OtherDoor { than, n } => OtherToWrite { than, n }.fmt(f),
            Due::KeeperlessDoor { free, .. } => KeeperlessToWrite(free).fmt(f),
            Due::LineFeed => write!(
                f,
                "a line feed at the end of the line (the Enter key writes one)"
            ),
            Due::Shorter => write!(f, "a text of at most 16384 bytes"),
        }
    }
}

/// The lines that may stand there, set out, where whole lines are due.
#[derive(Clone, Copy)]
struct LinesToCopy(Due);

impl fmt::Display for LinesToCopy {
    ghost use Rattle.std.specs.Prelude.{Some};
    ghost use Rattle.advice.specs.Write.{lines_to_copy};

    ghost output = { λ lines. Some (lines_to_copy lines.0) };

    fn fmt<W: fmt::Write>(&self, f: &mut fmt::Formatter<W>) -> fmt::Result {
        match self.0 {
            Due::Line(stage) => StageLines(stage).fmt(f),
            Due::Fields { kind, .. } => KindLines(kind).fmt(f),
            _ => Ok(()),
        }
    }
}

/// The lines that say what to write.
#[derive(Clone, Copy)]
pub(crate) struct WriteLines(pub(crate) Due);

impl fmt::Display for WriteLines {
    ghost use Rattle.std.specs.Prelude.{Some};
    ghost use Rattle.advice.specs.Write.{write_lines};

    ghost output = { λ lines. Some (write_lines lines.0) };

    fn fmt<W: fmt::Write>(&self, f: &mut fmt::Formatter<W>) -> fmt::Result {
        let (words, lines) = (WriteWords(self.0), LinesToCopy(self.0));
        write!(f, "write: {words}\n{lines}")
    }
}
