//! One diagram put to work over and over, for measuring.
ghost use Rattle.std.specs.Prelude.{◌≡◌, ◌+◌, ◌*◌, ◌≤◌, Ok, count_ones, length};
ghost use Rattle.std.specs.List.{sum_by};
ghost use Rattle.allowed.specs.Senses.{side_of};
ghost use Rattle.diagram.specs.Words.{round_of, width_of, records_of};
ghost use Rattle.layers.specs.Calls.{after_open, after_refine, refine_answer};
ghost use Rattle.layers.specs.Settings.{setting};
ghost use Rattle.packed.specs.Answers.{word_of_refined};
ghost use Rattle.packed.specs.Often.{turns, often_of, answer_word, last_answer, refined_diagram, asked_often};
ghost use Rattle.packed.specs.Senses.{doors_sense};
ghost use Rattle.rules.specs.Sides.{side_sense};
ghost use Rattle.packed.specs.Sheets.{OnRead};

use crate::refusal::Refusal;
use crate::sheet::RECORDS;
use crate::work::{Cost, Place, layer_of, side};
use diagram::diagram::Diagram;
use diagram::room::Room;
use doors::DoorSet;
use labels::blank::blank_node;
use round::table::Round;
use rules::side::{SideRule, SideState};
use tallies::late::LateDoors;
use text::reading::read_bounded;

/// Opens a diagram and refines it, and gives refine's answer as a word.
fn refine_once(
    room: Room<'_>,
    rule: &SideRule<'_>,
    tally: &LateDoors<'_>,
    records: &mut [Place],
) -> u32
    requires { room.round.now.n * room.width + 1 ≤ length records.old }
    ensures answer { let by = setting room.entry.round.now (side_sense rule.now)
        (doors_sense tally.now) room.entry.width in
        result ≡ word_of_refined (refine_answer by (after_open by records.old)) }
    ensures records { let by = setting room.entry.round.now (side_sense rule.now)
        (doors_sense tally.now) room.entry.width in
        records.new ≡ after_refine by (after_open by records.old) }
{
    let mut diagram = Diagram::open(room, rule, tally, records);
    layer_of(diagram.refine(rule, tally))
}

/// The answer of the last refine of so many, 0 if there is none.
fn refine_times(room: Room<'_>, times: usize) -> u32
    requires { room.round.now.n * room.width + 1 ≤ 2049 }
    ensures { result ≡ (turns room.entry.round.now room.entry.width times).0 }
{
    let rule = side(room.round);
    let tally = LateDoors::of(room.round);
    let mut records = [blank_node(&rule, &tally); RECORDS];
    let mut answer = 0;
    for turn in 0..times {
        answer = refine_once(room, &rule, &tally, &mut records);
    }
    answer
}

fn often_on(round: &Round, width: usize, times: usize) -> Result<u32, Refusal>
    ensures { result ≡ often_of width times (Ok round.now) }
{
    match Room::check(round, width, RECORDS) {
        Ok(room) => Ok(refine_times(room, times)),
        Err(refusal) => Err(Refusal::Diagram(refusal)),
    }
}

/// Reads a round's text, and so many times over opens its diagram at this width and refines it. Answers as the last refine did: 0
/// for whole, or the layer that was full; 0 if there is none.
pub fn refine_often(text: &[u8], width: usize, times: usize) -> Result<u32, Refusal>
    ensures { OnRead text.now (λ t. result ≡ often_of width times t) }
{
    let mut round = Round::fresh();
    match read_bounded(&mut round, text) {
        Ok(()) => often_on(&round, width, times),
        Err(refusal) => Err(Refusal::Text(refusal)),
    }
}

/// What a refined diagram is asked.
#[derive(Clone, Copy, Debug, PartialEq)]
pub enum Question {
    /// whether it is settled: 1 or 0
    Settled,
    /// all musts: how many there are
    Musts,
}

/// How many doors the sets have together.
fn doors_in(sets: &[DoorSet]) -> u32
    requires { length sets.now ≤ 17 }
    ensures { result ≡ sum_by count_ones sets.now }
{
    let mut count = 0;
    for set in sets {
        count += set.count_ones();
    }
    count
}

/// Asks the diagram, and gives its answer as a word.
fn ask(diagram: &Diagram<'_, '_, SideState, Cost>, rule: &SideRule<'_>, question: Question) -> u32
    requires { side_sense rule.now ≡ side_of (round_of diagram.now) }
    ensures { let r = round_of diagram.now in
        result ≡ answer_word question r (width_of diagram.now) (records_of diagram.now) }
{
    match question {
        Question::Settled => u32::from(diagram.settled(rule)),
        Question::Musts => doors_in(&diagram.musts()),
    }
}

/// Opens the diagram and refines it once, and asks it so many times: the last answer, 0 if there is none.
fn ask_times(room: Room<'_>, times: usize, question: Question) -> u32
    requires { room.round.now.n * room.width + 1 ≤ 2049 }
    ensures { let r = room.entry.round.now in let W = room.entry.width in
        result ≡ last_answer times (answer_word question r W (refined_diagram r W)) }
{
    let rule = side(room.round);
    let tally = LateDoors::of(room.round);
    let mut records = [blank_node(&rule, &tally); RECORDS];
    let mut diagram = Diagram::open(room, &rule, &tally, &mut records);
    diagram.refine(&rule, &tally);
    let mut last = 0;
    for turn in 0..times {
        last = ask(&diagram, &rule, question);
    }
    last
}

fn asked_on(round: &Round, width: usize, times: usize, question: Question) -> Result<u32, Refusal>
    ensures { result ≡ asked_often question width times (Ok round.now) }
{
    match Room::check(round, width, RECORDS) {
        Ok(room) => Ok(ask_times(room, times, question)),
        Err(refusal) => Err(Refusal::Diagram(refusal)),
    }
}

/// Reads a round's text, opens its diagram at this width and refines it once, and asks it so many times over. Answers as the last
/// time, 0 if there is none.
pub fn ask_often(
    text: &[u8],
    width: usize,
    times: usize,
    question: Question,
) -> Result<u32, Refusal>
    ensures { OnRead text.now (λ t. result ≡ asked_often question width times t) }
{
    let mut round = Round::fresh();
    match read_bounded(&mut round, text) {
        Ok(()) => asked_on(&round, width, times, question),
        Err(refusal) => Err(Refusal::Text(refusal)),
    }
}
