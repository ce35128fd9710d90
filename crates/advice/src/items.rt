//! What a number of the text says.
use std::fmt;
use text::fault::Item;

/// A place from which drives are told.
#[derive(Clone, Copy)]
pub(crate) struct PlaceWords(pub(crate) u16);

impl fmt::Display for PlaceWords {
    ghost use Rattle.std.specs.Prelude.{Some};
    ghost use Rattle.advice.specs.Items.{place_text};

    ghost output = { λ words. Some (place_text words.0) };

    fn fmt<W: fmt::Write>(&self, f: &mut fmt::Formatter<W>) -> fmt::Result {
        match self.0 {
            0 => write!(f, "the yard"),
            door => write!(f, "door {door}"),
        }
    }
}

/// What the key boxes picked up at a door are called.
#[derive(Clone, Copy)]
pub(crate) struct ChangeWords(pub(crate) u16);

impl fmt::Display for ChangeWords {
    ghost use Rattle.std.specs.Prelude.{Some};
    ghost use Rattle.advice.specs.Items.{change_text};

    ghost output = { λ words. Some (change_text words.0) };

    fn fmt<W: fmt::Write>(&self, f: &mut fmt::Formatter<W>) -> fmt::Result {
        let door = self.0;
        write!(
            f,
            "the key boxes picked up at door {door}, or left there if below 0"
        )
    }
}

/// What a number says.
#[derive(Clone, Copy)]
pub(crate) struct ItemWords(pub(crate) Item);

impl fmt::Display for ItemWords {
    ghost use Rattle.std.specs.Prelude.{Some};
    ghost use Rattle.advice.specs.Items.{item_text};

    ghost output = { λ words. Some (item_text words.0) };

    fn fmt<W: fmt::Write>(&self, f: &mut fmt::Formatter<W>) -> fmt::Result {
        match self.0 {
            Item::Doors => write!(f, "how many doors there are"),
            Item::StartLoad => write!(f, "the key boxes in the van at the start"),
            Item::Cap => write!(
                f,
                "the most key boxes that the van holds (no fewer than at the start)"
            ),
            Item::Grid => write!(
                f,
                "the grid (work starts only at multiples of so many minutes)"
            ),
            Item::Door => write!(f, "the number of the next door (in turn from 1)"),
            Item::Opens(door) => write!(
                f,
                "the minute at which door {door} opens, counted from the round's start"
            ),
            Item::Closes(door) => write!(
                f,
                "the minute at which door {door} closes, counted from the round's start"
            ),
            Item::DueMinute(door) => write!(
                f,
                "the minute after which door {door} is late, counted from the round's start"
            ),
            Item::Work(door) => write!(f, "the minutes of work at door {door}"),
            Item::Place => write!(f, "the number of the next place (in turn from 0, the yard)"),
            Item::Drive { from, to } => DriveWords { from, to }.fmt(f),
            Item::First => write!(f, "the earlier door of the pair"),
            Item::Keeper => write!(f, "the number of the door's keeper"),
        }
    }
}

/// What the minutes from a place to a door are called.
#[derive(Clone, Copy)]
struct DriveWords {
    from: u16,
    to: usize,
}

impl fmt::Display for DriveWords {
    ghost use Rattle.std.specs.Prelude.{Some};
    ghost use Rattle.advice.specs.Items.{drive_text};

    ghost output = { λ words. Some (drive_text words.from words.to) };

    fn fmt<W: fmt::Write>(&self, f: &mut fmt::Formatter<W>) -> fmt::Result {
        let (from, to) = (PlaceWords(self.from), self.to);
        write!(f, "the minutes of the drive from {from} to door {to}")
    }
}
