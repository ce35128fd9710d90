//! What is wrong with a text that is refused: what was due where reading stopped, and what stands there.
ghost use Rattle.std.specs.Prelude.{◌≡◌, ◌∷◌, [], ◌<◌, ◌≤◌, Ok, Err, MatchOption};
ghost use Rattle.text.specs.Faults.{keeperless_doors, number_or_zero, due_in_head, due_in_door, due_in_drive};
ghost use Rattle.text.specs.Faults.{due_in_first, due_in_keeper, due_in_later, due_in_field, fields_due};
ghost use Rattle.text.specs.Faults.{due_at, IsFoundIn, number_flaw, flaw_at, IsLineFault, IsRefusedAtEnd, IsFault, HasNoFault};
ghost use Rattle.text.specs.Codes.{field_of};
ghost use Rattle.text.specs.declared.draft.Draft as drafts;
ghost use Rattle.text.specs.Kinds.{named};
ghost use Rattle.text.specs.Lines.{fields_of};
ghost use Rattle.text.specs.Reading.{read_lines};
ghost use Rattle.text.specs.Steps.{Ready, line_step};

use crate::cut::cut_at;
use crate::draft::Draft;
use crate::fields::Line;
use crate::flaw::{Flaw, flaw_at_end, flaw_in, flaw_in_change, flaw_in_line};
use crate::kind::Kind;
use crate::number::within;
use crate::reading::LONGEST;
use crate::refusal::Refusal;
use crate::stage::Stage;
use crate::step::take_line;
use doors::{DoorSet, with};

/// What a number of the text says.
#[derive(Clone, Copy, Debug, PartialEq, Eq)]
pub enum Item {
    /// how many doors there are
    Doors,
    /// the key boxes in the van at the start
    StartLoad,
    /// the most key boxes that the van holds
    Cap,
    /// the minutes of whose multiples work starts
    Grid,
    /// which door a door line is of
    Door,
    /// when that door opens
    Opens(u16),
    /// when that door closes
    Closes(u16),
    /// after which minute that door is late
    DueMinute(u16),
    /// how long the work at that door takes
    Work(u16),
    /// which place a drive line starts from
    Place,
    /// the minutes from a place to a door
    Drive { from: u16, to: usize },
    /// the door that comes first of a pair
    First,
    /// the keeper of a door
    Keeper,
}

/// What was due where reading stopped.
#[derive(Clone, Copy, Debug, PartialEq, Eq)]
pub enum Due {
    /// a line of a kind that may come next, or the end of the text where it may end
    Line(Stage),
    /// so many fields in a line of this kind, the kind among them
    Fields {
        kind: Kind,
        least: usize,
        most: usize,
    },
    /// a number from low to high
    Number {
        item: Item,
        low: u16,
        high: u16,
    },
    /// a number from -99 to 99
    Change(u16),
    /// a minus alone, for the drive from that place to itself
    Dash(u16),
    /// a door from 1 to n, other than that one
    OtherDoor {
        than: u16,
        n: u16,
    },
    /// a door from 1 to n without a keeper line above, which are these
    KeeperlessDoor {
        free: DoorSet,
        n: u16,
    },
    /// a line feed at the end of the line
    LineFeed,
    /// at most 16,384 bytes
    Shorter,
}

/// What stands where reading stopped.
#[derive(Clone, Copy, Debug, PartialEq, Eq)]
pub enum Found<'a> {
    /// the bytes of the field
    Field(&'a [u8]),
    /// a line with so many fields
    Fields(usize),
    /// nothing: the text ends there
    End,
    /// a line that no line feed ends
    Unended(&'a [u8]),
    /// more than 16,384 bytes
    Longer,
}

/// Why a text is refused, and what would have been due.
#[derive(Clone, Copy, Debug, PartialEq)]
pub struct Fault<'a> {
    pub refusal: Refusal,
    pub due: Due,
    pub found: Found<'a>,
    /// the flaw that the bytes show, if they show one
    pub flaw: Option<Flaw>,
}

/// A text with more than 16,384 bytes.
const TOO_LONG: Fault<'static> = Fault {
    refusal: Refusal::TooLong,
    due: Due::Shorter,
    found: Found::Longer,
    flaw: None,
};

/// The doors 1 to n that have no keeper in the table.
fn keeperless_doors(n: u16, keepers: &[u16; 17]) -> DoorSet
    requires { n ≤ 16 }
    ensures { result ≡ keeperless_doors n keepers.now }
{
    let mut set = 0;
    for door in 1..=n as usize {
        if keepers[door] == 0 {
            set = with(set, door);
        }
    }
    set
}

/// The number in that field, or 0 where none from low to high stands there.
fn number_or_zero(line: &Line<'_>, field: usize, low: u16, high: u16) -> u16
    requires some { 1 ≤ field }
    requires most { field ≤ 18 }
    requires small { high < 10000 }
    ensures { result ≡ number_or_zero (fields_of line.now) field low high }
{
    within(line.token(field), low, high).unwrap_or(0)
}

/// What is due in a field of the round line.
fn due_in_head(line: &Line<'_>, field: usize) -> Due
    ensures { result ≡ due_in_head (fields_of line.now) field }
{
    let (item, low, high) = match field {
        2 => (Item::Doors, 1, 16),
        3 => (Item::StartLoad, 0, 999),
        4 => (Item::Cap, number_or_zero(line, 3, 0, 999), 999),
        _ => (Item::Grid, 1, 60),
    };
    Due::Number { item, low, high }
}

/// What is due in a field of the line of that door.
fn due_in_door(door: u16, field: usize) -> Due
    ensures { result ≡ due_in_door door field }
{
    let (item, low, high) = match field {
        2 => (Item::Door, door, door),
        3 => (Item::Opens(door), 0, 9_999),
        4 => (Item::Closes(door), 0, 9_999),
        5 => (Item::DueMinute(door), 0, 9_999),
        6 => (Item::Work(door), 1, 999),
        _ => return Due::Change(door),
    };
    Due::Number { item, low, high }
}

/// What is due in a field of the drives from that place.
fn due_in_drive(from: u16, field: usize) -> Due
    ensures { result ≡ due_in_drive from field }
{
    if field == 2 {
        Due::Number {
            item: Item::Place,
            low: from,
            high: from,
        }
    } else if field == from as usize + 2 {
        Due::Dash(from)
    } else {
        let item = Item::Drive {
            from,
            to: field.saturating_sub(2),
        };
        Due::Number {
            item,
            low: 0,
            high: 999,
        }
    }
}

/// What is due in a field of a first line.
fn due_in_first(n: u16, line: &Line<'_>, field: usize) -> Due
    requires { n ≤ 16 }
    ensures { result ≡ due_in_first n (fields_of line.now) field }
{
    if field == 2 {
        Due::Number {
            item: Item::First,
            low: 1,
            high: n,
        }
    } else {
        Due::OtherDoor {
            than: number_or_zero(line, 2, 1, n),
            n,
        }
    }
}

/// What is due in a field of a keeper line.
fn due_in_keeper(draft: &Draft, field: usize) -> Due
    requires { draft.now.n ≤ 16 }
    ensures { result ≡ due_in_keeper draft.now.n draft.now.keepers field }
{
    if field == 2 {
        Due::KeeperlessDoor {
            free: keeperless_doors(draft.n, &draft.keepers),
            n: draft.n,
        }
    } else {
        Due::Number {
            item: Item::Keeper,
            low: 1,
            high: 99,
        }
    }
}

/// What is due in a field of a line that comes at that stage.
fn due_in_field(stage: Stage, draft: &Draft, line: &Line<'_>, field: usize) -> Due
    requires { draft.now.n ≤ 16 }
    ensures { result ≡ due_in_field stage draft.now (fields_of line.now) field }
{
    match (stage, line.kind()) {
        (Stage::Head, _) => due_in_head(line, field),
        (Stage::Doors(door), _) => due_in_door(door, field),
        (Stage::Drives(from), _) => due_in_drive(from, field),
        (Stage::Pairs | Stage::Keepers, Kind::First) => due_in_first(draft.n, line, field),
        (Stage::Pairs | Stage::Keepers, _) => due_in_keeper(draft, field),
    }
}

/// How many fields a line of that kind has.
fn fields_due(kind: Kind, n: u16) -> Due
    requires { n ≤ 16 }
    ensures { result ≡ fields_due kind n }
{
    let (least, most) = match kind {
        Kind::Round => (4, 5),
        Kind::Door => (7, 7),
        Kind::Drive => (n as usize + 2, n as usize + 2),
        Kind::First | Kind::Keeper | Kind::Other => (3, 3),
    };
    Due::Fields { kind, least, most }
}

/// What was due, by the refusal of a line.
fn due_at(stage: Stage, draft: &Draft, line: &Line<'_>, refusal: Refusal) -> Due
    requires { draft.now.n ≤ 16 }
    ensures { result ≡ due_at stage draft.now (fields_of line.now) refusal }
{
    match refusal {
        Refusal::NotDue { .. } => Due::Line(stage),
        Refusal::FieldCount { .. } => fields_due(line.kind(), draft.n),
        Refusal::Unended { .. } => Due::LineFeed,
        Refusal::TooLong => Due::Shorter,
        Refusal::NotNumber { .. }
        | Refusal::OutOfRange { .. }
        | Refusal::OutOfTurn { .. }
        | Refusal::SecondKeeper { .. } => due_in_field(stage, draft, line, refusal.field()),
    }
}

/// The flaw of bytes that are no number, by what was due.
fn number_flaw(due: Due, bytes: &[u8]) -> Option<Flaw>
    ensures { result ≡ number_flaw due bytes.now }
{
    match due {
        Due::Change(_) => flaw_in_change(bytes),
        _ => flaw_in(bytes),
    }
}

/// The flaw that a line shows, by its refusal.
fn flaw_at(line: &Line<'_>, due: Due, refusal: Refusal) -> Option<Flaw>
    requires some { 1 ≤ field_of refusal }
    requires most { field_of refusal ≤ 18 }
    ensures { result ≡ flaw_at line.now.bytes.now due refusal }
{
    match refusal {
        Refusal::NotDue { .. } => flaw_in(line.field(1)),
        Refusal::FieldCount { .. } => flaw_in_line(line.bytes()),
        Refusal::NotNumber { field, .. } => number_flaw(due, line.field(field)),
        _ => None,
    }
}

/// What stands there, by the refusal of a line.
fn found_in<'a>(line: &Line<'a>, refusal: Refusal) -> Found<'a>
    requires some { 1 ≤ field_of refusal }
    requires most { field_of refusal ≤ 18 }
    ensures { IsFoundIn (fields_of line.now) refusal result }
{
    match refusal {
        Refusal::FieldCount { .. } => Found::Fields(line.count()),
        _ => Found::Field(line.field(refusal.field())),
    }
}

/// What is wrong with a line that is refused.
fn line_fault<'a>(stage: Stage, draft: &Draft, line: &Line<'a>, refusal: Refusal) -> Fault<'a>
    requires ready { Ready stage draft.now }
    requires refused { line_step stage draft.now line.now.number (fields_of line.now)
        ≡ Err refusal }
    ensures { IsLineFault line.now.bytes.now line.now.number stage draft.now result }
{
    let due = due_at(stage, draft, line, refusal);
    Fault {
        refusal,
        due,
        found: found_in(line, refusal),
        flaw: flaw_at(line, due, refusal),
    }
}

/// What is wrong behind the last line feed, where these bytes stand, if anything is.
fn end_fault<'a>(stage: Stage, rest: &'a [u8], line: usize) -> Option<Fault<'a>>
    ensures { (d : drafts.Draft) → MatchOption result
        (read_lines (rest.now ∷ []) line stage d ≡ Ok d)
        (λ x. IsRefusedAtEnd rest.now line stage d x) }
{
    if !rest.is_empty() {
        return Some(Fault {
            refusal: Refusal::Unended { line },
            due: Due::LineFeed,
            found: Found::Unended(rest),
            flaw: flaw_at_end(rest),
        });
    }
    match stage {
        Stage::Pairs | Stage::Keepers => None,
        _ => Some(Fault {
            refusal: Refusal::NotDue { line },
            due: Due::Line(stage),
            found: Found::End,
            flaw: None,
        }),
    }
}

/// What is wrong with a text, if anything is.
pub fn fault_in(text: &[u8]) -> Option<Fault<'_>>
    ensures { MatchOption result (HasNoFault text.now) (IsFault text.now) }
{
    if text.len() > LONGEST {
        return Some(TOO_LONG);
    }
    let mut draft = Draft::new();
    let mut stage = Stage::Head;
    let mut rest = text;
    let mut number = 1;
    while let Some((bytes, after)) = cut_at(rest, b'\n') {
        let line = Line::new(bytes, number);
        match take_line(&mut draft, stage, &line) {
            Ok(next) => stage = next,
            Err(refusal) => return Some(line_fault(stage, &draft, &line, refusal)),
        }
        rest = after;
        number += 1;
    }
    end_fault(stage, rest, number)
}
