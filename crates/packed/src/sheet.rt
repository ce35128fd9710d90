//! The sheet of a round's text, and of a list of calls on its diagram.
ghost use Rattle.std.specs.Prelude.{◌≡◌, ◌+◌, ◌*◌, ◌/◌, ◌≤◌, IsSome, IfOk, Ok, length};
ghost use Rattle.packed.specs.Requests.{requests_of, requests_in};
ghost use Rattle.packed.specs.Sheets.{sheet_words, sheet_of, byte_count, written, OnRead};
ghost use Rattle.packed.specs.Words.{begun_with};

use crate::call::{CALL, readable};
use crate::head::put_head;
use crate::refusal::Refusal;
use crate::work::{make_all, side};
use diagram::diagram::Diagram;
use diagram::room::Room;
use labels::blank::blank_node;
use round::table::Round;
use tallies::late::LateDoors;
use text::reading::read_bounded;

/// As many records as the widest diagram of the most doors has.
pub(crate) const RECORDS: usize = 2049;

/// The bytes ahead of the calls' answers.
const HEAD: usize = 88;

/// Opens the round's diagram, makes the calls, and writes what it is asked after them, and their answers.
fn write_sheet(room: Room<'_>, calls: &[u8], out: &mut [u8])
    requires width { room.round.now.n * room.width + 1 ≤ 2049 }
    requires calls { IsSome (requests_of calls.now) }
    requires fits { 88 + length calls.now / 4 ≤ length out.old }
    ensures { out.new
        ≡ begun_with (sheet_words room.entry.round.now room.entry.width (requests_in calls.now))
        out.old }
{
    let rule = side(room.round);
    let tally = LateDoors::of(room.round);
    let mut records = [blank_node(&rule, &tally); RECORDS];
    let mut diagram = Diagram::open(room, &rule, &tally, &mut records);
    make_all(&mut diagram, &rule, &tally, calls, &mut out[HEAD..]);
    put_head(room, &diagram, &rule, calls.len() / CALL, out);
}

fn sheet_on(round: &Round, width: usize, calls: &[u8], out: &mut [u8]) -> Result<usize, Refusal>
    ensures answer { result
        ≡ byte_count (sheet_of width calls.now (length out.old) (Ok round.now)) }
    ensures out { out.new
        ≡ written (sheet_of width calls.now (length out.old) (Ok round.now)) out.old }
{
    let room = match Room::check(round, width, RECORDS) {
        Ok(room) => room,
        Err(refusal) => return Err(Refusal::Diagram(refusal)),
    };
    if !readable(calls) {
        return Err(Refusal::Calls);
    }
    let long = HEAD + calls.len() / 4;
    if out.len() < long {
        return Err(Refusal::Short);
    }
    write_sheet(room, calls, out);
    Ok(long)
}

/// Reads a round's text, opens its diagram at this width, makes the calls, and writes the sheet: what the diagram is asked after
/// them, and the answer of each. Answers how many bytes are written. A refusal writes nothing.
pub fn sheet(text: &[u8], width: usize, calls: &[u8], out: &mut [u8]) -> Result<usize, Refusal>
    ensures answer { OnRead text.now
        (λ t. result ≡ byte_count (sheet_of width calls.now (length out.old) t)) }
    ensures out { OnRead text.now
        (λ t. out.new ≡ written (sheet_of width calls.now (length out.old) t) out.old) }
    ensures within { IfOk result (λ k. k ≤ length out.old) }
{
    let mut round = Round::fresh();
    match read_bounded(&mut round, text) {
        Ok(()) => sheet_on(&round, width, calls, out),
        Err(refusal) => Err(Refusal::Text(refusal)),
    }
}
