//! The sheet of a round, made over a lent list of records.
ghost use Rattle.std.specs.Prelude.{◌≡◌, ◌+◌, ◌*◌, ◌<◌, ◌≤◌, ◌↔◌, true, length, drop, IsOk, IfOk, IfErr, OnOk, OnErr};
ghost use Rattle.layers.specs.declared.refusal.Refusal.TheVariants.{Short};
ghost use Rattle.layers.specs.declared.refined.Refined.TheVariants.{Whole};
ghost use Rattle.refine.specs.Answers.{IsInnerIfFull};
ghost use Rattle.round_sheet.specs.Claims.{NoneUndercuts, MustsNameDoors, MustsHold, BoundIsReached, NoMustMissing};
ghost use Rattle.round_sheet.specs.Sheets.{places_of, refined_for, sheet_of};

use diagram::diagram::Diagram;
use diagram::room::Room;
use doors::DoorSet;
use layers::node::{Arcs, Down, Label, Node, Up};
use layers::refined::Refined;
use layers::refusal::Refusal;
use round::table::Round;
use rules::both::Both;
use rules::load::Interval;
use rules::side::SideState;
use tallies::late::LateDoors;

/// The width of the sheet's diagram.
pub const WIDTH: usize = 16;

/// As many records as the diagram of 16 doors takes.
pub const RECORDS: usize = 257;

/// A record of the sheet's diagram, whose rule is pairs, load and keepers together, and whose tally is late doors.
pub type Place = Node<SideState, (u32, u32)>;

/// A record with nothing in it, for a list that is to be lent.
pub const EMPTY: Place = Node {
    arcs: Arcs { to: [0; 16] },
    label: Label {
        down: Down {
            all: 0,
            some: 0,
            finish: 0,
            lasts: 0,
            state: ((0, Interval { low: 0, high: 0 }), 0),
            value: (0, 0),
        },
        up: Up {
            allup: 0,
            someup: 0,
            late: 0,
        },
    },
};

/// What a round's diagram of its side rules and late doors says once it is refined.
#[derive(Clone, Copy, Debug, PartialEq)]
pub struct Sheet {
    /// Late doors and late minutes that no allowed order undercuts; none only if no order is allowed.
    pub bound: Option<(u32, u32)>,
    /// Whether every node could be parted, or the layer that was full.
    pub refined: Refined,
    /// If yes, the bound is the cost of an allowed order, and no must is missing. A refine that is whole makes it so.
    pub settled: bool,
    /// For each door, by number, the set of the doors that have to come behind it.
    pub musts: [DoorSet; 17],
}

/// The sheet read off the diagram that is opened and refined on the list.
fn sheet_on(room: Room<'_>, records: &mut [Place]) -> Sheet
    requires fits { room.round.now.n * room.width + 1 ≤ length records.old }
    requires width { room.width ≡ 16 }
    ensures records { records.new ≡ (refined_for room.entry.round.now records.old).1 }
    ensures later { let end = places_of room.entry.round.now in
        drop end records.new ≡ drop end records.old }
    ensures sheet { result ≡ sheet_of room.entry.round.now records.old }
    ensures layer { IsInnerIfFull room.entry.round.now.n result.refined }
    ensures none_undercuts { NoneUndercuts room.entry.round.now result.bound }
    ensures musts_named { MustsNameDoors room.entry.round.now result.musts }
    ensures musts_hold { MustsHold room.entry.round.now result.musts }
    ensures whole_settles { result.refined ≡ Whole → result.settled ≡ true }
    ensures bound_reached { result.settled ≡ true
        → BoundIsReached room.entry.round.now result.bound }
    ensures none_missing { result.settled ≡ true
        → NoMustMissing room.entry.round.now result.musts }
{
    let rule = Both::of(room.round);
    let tally = LateDoors::of(room.round);
    let mut diagram = Diagram::open(room, &rule, &tally, records);
    let refined = diagram.refine(&rule, &tally);
    Sheet {
        bound: diagram.bound(),
        refined,
        settled: diagram.settled(&rule),
        musts: diagram.musts(),
    }
}

impl Sheet {
    /// Opens the round's diagram on the lent list, refines it, and reads the sheet off it. The list is left with the diagram's
    /// records, and later places as they were lent. A list with fewer records than the diagram takes is refused, and left as
    /// it was lent.
    ///
    /// Of every allowed order: it costs no less than the bound, and keeps each must, which names two different doors of the
    /// round; without a bound there is no such order. If the sheet is settled, the bound is what one of them costs, and where
    /// a must is missing one goes the other way round.
    pub fn of(round: &Round, records: &mut [Place]) -> Result<Sheet, Refusal>
        ensures room { IsOk result ↔ (places_of round.now ≤ length records.old) }
        ensures refusal { IfErr result (λ e. e ≡ Short) }
        ensures left { OnErr result (records.new ≡ records.old) }
        ensures records { OnOk result (records.new ≡ (refined_for round.now records.old).1) }
        ensures later { OnOk result
            (drop (places_of round.now) records.new ≡ drop (places_of round.now) records.old) }
        ensures sheet { IfOk result (λ s. s ≡ sheet_of round.now records.old) }
        ensures layer { IfOk result (λ s. IsInnerIfFull round.now.n s.refined) }
        ensures none_undercuts { IfOk result (λ s. NoneUndercuts round.now s.bound) }
        ensures musts_named { IfOk result (λ s. MustsNameDoors round.now s.musts) }
        ensures musts_hold { IfOk result (λ s. MustsHold round.now s.musts) }
        ensures whole_settles { IfOk result (λ s. s.refined ≡ Whole → s.settled ≡ true) }
        ensures bound_reached { IfOk result
            (λ s. s.settled ≡ true → BoundIsReached round.now s.bound) }
        ensures none_missing { IfOk result
            (λ s. s.settled ≡ true → NoMustMissing round.now s.musts) }
    {
        let room = Room::check(round, WIDTH, records.len())?;
        Ok(sheet_on(room, records))
    }
}
