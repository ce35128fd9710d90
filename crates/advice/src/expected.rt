//! What is expected where a text is at fault.
use crate::found::CountWords;
use crate::items::{ChangeWords, ItemWords, PlaceWords};
use doors::DoorSet;
use std::fmt;
use text::fault::{Due, Item};
use text::kind::Kind;
use text::stage::Stage;

/// The lines that may come next.
#[derive(Clone, Copy)]
struct StageWords(Stage);

impl fmt::Display for StageWords {
    ghost use Rattle.std.specs.Prelude.{Some};
    ghost use Rattle.advice.specs.Expected.{stage_text};

    ghost output = { λ words. Some (stage_text words.0) };

    fn fmt<W: fmt::Write>(&self, f: &mut fmt::Formatter<W>) -> fmt::Result {
        match self.0 {
            Stage::Head => write!(f, "the round line, which comes first"),
            Stage::Doors(door) => write!(
                f,
                "the line of door {door} (the round line says how many doors there are)"
            ),
            Stage::Drives(place) => {
                let from = PlaceWords(place);
                write!(
                    f,
                    "the line of the drives from {from} (the round line says how many doors there are)"
                )
            }
            Stage::Pairs => write!(
                f,
                "a first line, a keeper line, or the end of the text (the round line says how many doors there are)"
            ),
            Stage::Keepers => write!(
                f,
                "a keeper line, or the end of the text (first lines stand above the keeper lines)"
            ),
        }
    }
}

/// So many fields, or one of two counts: no kind of line may have more than two.
#[derive(Clone, Copy)]
struct SpanWords {
    least: usize,
    most: usize,
}

impl fmt::Display for SpanWords {
    ghost use Rattle.std.specs.Prelude.{Some};
    ghost use Rattle.advice.specs.Expected.{span_text};

    ghost output = { λ words. Some (span_text words.least words.most) };

    fn fmt<W: fmt::Write>(&self, f: &mut fmt::Formatter<W>) -> fmt::Result {
        let SpanWords { least, most } = *self;
        if least == most {
            CountWords(most).fmt(f)
        } else {
            write!(f, "{least} or {most} fields")
        }
    }
}

/// What the fields of a line are called, behind a colon.
#[derive(Clone, Copy)]
struct NamesWords(Kind);

impl fmt::Display for NamesWords {
    ghost use Rattle.std.specs.Prelude.{Some};
    ghost use Rattle.advice.specs.Expected.{names_text};

    ghost output = { λ words. Some (names_text words.0) };

    fn fmt<W: fmt::Write>(&self, f: &mut fmt::Formatter<W>) -> fmt::Result {
        match self.0 {
            Kind::Round => write!(
                f,
                ": round, doors, start load, cap, and the grid if there is one"
            ),
            Kind::Door => write!(
                f,
                ": door, its number, opens, closes, due, work, and change"
            ),
            Kind::Drive => write!(
                f,
                ": drive, place, and the minutes to each door (the round line says how many doors there are)"
            ),
            Kind::First => write!(f, ": first, the earlier door, and the later door"),
            Kind::Keeper => write!(f, ": keeper, door, and the number of its keeper"),
            // a line with a wrong count of fields is always of one of the kinds above
            Kind::Other => Ok(()),
        }
    }
}

/// A number from low to high.
#[derive(Clone, Copy)]
pub(crate) struct RangeWords {
    pub(crate) low: u16,
    pub(crate) high: u16,
}

impl fmt::Display for RangeWords {
    ghost use Rattle.std.specs.Prelude.{Some};
    ghost use Rattle.advice.specs.Expected.{range_text};

    ghost output = { λ words. Some (range_text words.low words.high) };

    fn fmt<W: fmt::Write>(&self, f: &mut fmt::Formatter<W>) -> fmt::Result {
        let RangeWords { low, high } = *self;
        if low == high {
            write!(f, "exactly {low}")
        } else {
            write!(f, "a number from {low} to {high}")
        }
    }
}

/// A number from low to high, and what it says.
#[derive(Clone, Copy)]
struct NumberWords {
    item: Item,
    low: u16,
    high: u16,
}

impl fmt::Display for NumberWords {
    ghost use Rattle.std.specs.Prelude.{Some};
    ghost use Rattle.advice.specs.Items.{item_text};
    ghost use Rattle.advice.specs.Expected.{number_text};

    ghost output = { λ words. Some (number_text (item_text words.item) words.low words.high) };

    fn fmt<W: fmt::Write>(&self, f: &mut fmt::Formatter<W>) -> fmt::Result {
        let NumberWords { item, low, high } = *self;
        let (item, range) = (ItemWords(item), RangeWords { low, high });
        write!(f, "{item}, {range}")
    }
}

/// The earlier door of a pair, from low to high, which is how many doors there are.
#[derive(Clone, Copy)]
struct FirstWords {
    low: u16,
    high: u16,
}

impl fmt::Display for FirstWords {
    ghost use Rattle.std.specs.Prelude.{Some};
    ghost use Rattle.advice.specs.Expected.{first_text};

    ghost output = { λ words. Some (first_text words.low words.high) };

    fn fmt<W: fmt::Write>(&self, f: &mut fmt::Formatter<W>) -> fmt::Result {
        let (item, low) = (Item::First, self.low);
        match self.high {
            1 => write!(f, "no pair, since there is one door"),
            high => NumberWords { item, low, high }.fmt(f),
        }
    }
}

/// The later door of a pair, one of the doors 1 to n other than that one.
#[derive(Clone, Copy)]
struct OtherWords {
    than: u16,
    n: u16,
}

impl fmt::Display for OtherWords {
    ghost use Rattle.std.specs.Prelude.{Some};
    ghost use Rattle.advice.specs.Expected.{other_text};

    ghost output = { λ words. Some (other_text words.than words.n) };

    fn fmt<W: fmt::Write>(&self, f: &mut fmt::Formatter<W>) -> fmt::Result {
        let than = self.than;
        match self.n {
            1 => write!(f, "no pair, since there is one door"),
            n => write!(
                f,
                "the later door of the pair, a door from 1 to {n} other than {than}"
            ),
        }
    }
}

/// The door of a keeper line, one of the doors 1 to n without one, if there are such doors.
#[derive(Clone, Copy)]
struct KeeperlessWords {
    free: DoorSet,
    n: u16,
}

impl fmt::Display for KeeperlessWords {
    ghost use Rattle.std.specs.Prelude.{Some};
    ghost use Rattle.advice.specs.Expected.{keeperless_text};

    ghost output = { λ words. Some (keeperless_text words.free words.n) };

    fn fmt<W: fmt::Write>(&self, f: &mut fmt::Formatter<W>) -> fmt::Result {
        let n = self.n;
        if self.free == 0 {
            write!(f, "no keeper line more, since each door has one")
        } else if n == 1 {
            write!(f, "door 1, which has no keeper line yet")
        } else {
            write!(
                f,
                "the door of the keeper line, a door from 1 to {n} that has no keeper line yet"
            )
        }
    }
}

/// What is expected.
#[derive(Clone, Copy)]
pub(crate) struct ExpectedWords(pub(crate) Due);

impl fmt::Display for ExpectedWords {
    ghost use Rattle.std.specs.Prelude.{Some};
    ghost use Rattle.advice.specs.Expected.{expected_text};

    ghost output = { λ words. Some (expected_text words.0) };

    fn fmt<W: fmt::Write>(&self, f: &mut fmt::Formatter<W>) -> fmt::Result {
        match self.0 {
            Due::Line(stage) => StageWords(stage).fmt(f),
            Due::Fields { kind, least, most } => {
                let (span, names) = (SpanWords { least, most }, NamesWords(kind));
                write!(f, "{span}{names}")
            }
            Due::Number {
                item: Item::First,
                low,
                high,
            } => FirstWords { low, high }.fmt(f),
            Due::Number { item, low, high } => NumberWords { item, low, high }.fmt(f),
            Due::Change(door) => {
                let change = ChangeWords(door);
                write!(f, "{change}, a number from -99 to 99")
            }
            Due::Dash(place) => {
                let from = PlaceWords(place);
                write!(f, "\"-\" alone, for the drive from {from} to itself")
            }
            Due::OtherDoor { than, n } => OtherWords { than, n }.fmt(f),
            Due::KeeperlessDoor { free, n } => KeeperlessWords { free, n }.fmt(f),
            Due::LineFeed => write!(f, "a line feed at the end of the line"),
            Due::Shorter => write!(f, "a text of at most 16384 bytes"),
        }
    }
}
