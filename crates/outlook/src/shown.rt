//! How an outlook reads: lines in plain words, with a line feed at the end of each.
ghost use Rattle.std.specs.Prelude.{◌≤◌};

use crate::outlook::{LoadOutlook, Outlook};
use crate::relations::{Relation, RelationLines};
use round::door::Door;
use round::table::Round;
use std::fmt;

/// How many doors there are, the key boxes, and when work starts.
#[derive(Clone, Copy)]
struct RoundLine<'a>(&'a Round);

impl fmt::Display for RoundLine<'_> {
    ghost use Rattle.std.specs.Prelude.{Some};
    ghost use Rattle.outlook.specs.Texts.{round_line};

    ghost output = { λ line. Some (round_line line.0.now) };

    fn fmt<W: fmt::Write>(&self, f: &mut fmt::Formatter<W>) -> fmt::Result {
        let (n, load) = (self.0.n, self.0.load);
        let (cap, grid) = (self.0.cap, self.0.grid);
        if n == 1 {
            write!(f, "round: 1 door")?;
        } else {
            write!(f, "round: {n} doors")?;
        }
        write!(f, "; key boxes: {load} at the start, {cap} at most; ")?;
        if grid == 1 {
            writeln!(f, "work starts at any minute")
        } else {
            writeln!(f, "work starts at multiples of {grid} minutes")
        }
    }
}

/// A door's hours and work.
#[derive(Clone, Copy)]
struct HoursWords(Door);

#[tactic(auto, unfolding(crate::specs::Texts::hours_words))]
impl fmt::Display for HoursWords {
    ghost use Rattle.std.specs.Prelude.{Some};
    ghost use Rattle.outlook.specs.Texts.{hours_words};

    ghost output = { λ words. Some (hours_words words.0) };

    fn fmt<W: fmt::Write>(&self, f: &mut fmt::Formatter<W>) -> fmt::Result {
        let (opens, closes, work) = (self.0.opens, self.0.closes, self.0.work);
        write!(f, "open {opens} to {closes}, work {work}")
    }
}

/// What is left till a door closes, when it is done at the earliest.
#[derive(Clone, Copy)]
struct SpareWords {
    closes: u16,
    done: u32,
}

#[tactic(auto, unfolding(crate::specs::Texts::spare_words))]
impl fmt::Display for SpareWords {
    ghost use Rattle.std.specs.Prelude.{Some};
    ghost use Rattle.outlook.specs.Texts.{spare_words};

    ghost output = { λ words. Some (spare_words words.closes words.done) };

    fn fmt<W: fmt::Write>(&self, f: &mut fmt::Formatter<W>) -> fmt::Result {
        let (closes, done) = (u32::from(self.closes), self.done);
        if closes < done {
            write!(f, ": too late, whatever comes first")
        } else {
            let spare = closes - done;
            write!(f, ", {spare} to spare")
        }
    }
}

/// The line of door j.
#[derive(Clone, Copy)]
struct DoorLine<'o, 'a> {
    outlook: &'o Outlook<'a>,
    j: usize,
    ghost inside: { j ≤ 16 },
}

impl fmt::Display for DoorLine<'_, '_> {
    ghost use Rattle.std.specs.Prelude.{Some};
    ghost use Rattle.outlook.specs.Texts.{door_line};

    ghost output = { λ line. Some (door_line line.outlook.now line.j) };

    fn fmt<W: fmt::Write>(&self, f: &mut fmt::Formatter<W>) -> fmt::Result {
        let (outlook, j) = (self.outlook, self.j);
        let door = outlook.round.doors[j];
        let hours = HoursWords(door);
        let (closes, done) = (door.closes, outlook.earliest[j]);
        let spare = SpareWords { closes, done };
        writeln!(
            f,
            "door {j}: {hours}, done at {done} at the earliest{spare}"
        )
    }
}

/// A line for each door.
#[derive(Clone, Copy)]
struct DoorLines<'o, 'a>(&'o Outlook<'a>);

impl fmt::Display for DoorLines<'_, '_> {
    ghost use Rattle.std.specs.Prelude.{Some};
    ghost use Rattle.outlook.specs.Texts.{door_lines};

    ghost output = { λ lines. Some (door_lines lines.0.now lines.0.now.round.now.n) };

    fn fmt<W: fmt::Write>(&self, f: &mut fmt::Formatter<W>) -> fmt::Result {
        let outlook = self.0;
        for j in 1..outlook.round.n + 1 {
            let line = DoorLine { outlook, j };
            write!(f, "{line}")?;
        }
        Ok(())
    }
}

/// Doors, with a blank ahead of each.
#[derive(Clone, Copy)]
struct DoorWords<'a>(&'a [usize]);

impl fmt::Display for DoorWords<'_> {
    ghost use Rattle.std.specs.Prelude.{Some};
    ghost use Rattle.outlook.specs.Texts.{door_words};

    ghost output = { λ words. Some (door_words words.0.now) };

    fn fmt<W: fmt::Write>(&self, f: &mut fmt::Formatter<W>) -> fmt::Result {
        for door in self.0 {
            write!(f, " {door}")?;
        }
        Ok(())
    }
}

/// Whether the load can be kept.
impl fmt::Display for LoadOutlook {
    ghost use Rattle.std.specs.Prelude.{Some};
    ghost use Rattle.outlook.specs.Texts.{load_line};

    ghost output = { λ load. Some (load_line load) };

    fn fmt<W: fmt::Write>(&self, f: &mut fmt::Formatter<W>) -> fmt::Result {
        match self {
            LoadOutlook::Never => writeln!(f, "load: kept by no order"),
            LoadOutlook::NotWithPairs => writeln!(
                f,
                "load: kept by some orders, but by none that keeps the pairs too"
            ),
            LoadOutlook::Kept(order) => {
                let doors = DoorWords(order.as_slice());
                writeln!(
                    f,
                    "load: kept, and the pairs too, by the order{doors} (hours and keepers not asked)"
                )
            }
        }
    }
}

/// Whether one of the other lines rules out every order.
#[derive(Clone, Copy)]
struct LastLine<'o, 'a>(&'o Outlook<'a>);

impl fmt::Display for LastLine<'_, '_> {
    ghost use Rattle.std.specs.Prelude.{Some};
    ghost use Rattle.outlook.specs.Texts.{last_line};

    ghost output = { λ line. Some (last_line line.0.now) };

    fn fmt<W: fmt::Write>(&self, f: &mut fmt::Formatter<W>) -> fmt::Result {
        if self.0.rules_out_all() {
            writeln!(f, "no order is allowed")
        } else {
            writeln!(
                f,
                "no single door, circle or load rules out every order; sheet takes all rules together, keepers too"
            )
        }
    }
}

/// The round, a line for each door, those of the pairs, of what follows from them and of the keepers, the load, and whether one
/// of these rules out every order.
impl fmt::Display for Outlook<'_> {
    ghost use Rattle.std.specs.Prelude.{Some};
    ghost use Rattle.outlook.specs.Texts.{outlook_text};

    ghost output = { λ outlook. Some (outlook_text outlook) };

    fn fmt<W: fmt::Write>(&self, f: &mut fmt::Formatter<W>) -> fmt::Result {
        let (round, doors) = (RoundLine(self.round), DoorLines(self));
        let lines = |relation| RelationLines {
            relation,
            outlook: self,
        };
        let (pairs, follows) = (lines(Relation::Pair), lines(Relation::Follows));
        let (circles, keepers) = (lines(Relation::Circle), lines(Relation::Keeper));
        let (load, last) = (&self.load, LastLine(self));
        write!(f, "{round}{doors}{pairs}{follows}")?;
        write!(f, "{circles}{keepers}{load}{last}")
    }
}
