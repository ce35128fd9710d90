//! What a diagram is asked after its calls: the words at the head of a sheet.
ghost use Rattle.std.specs.Prelude.{◌≡◌, ◌≤◌, length};
ghost use Rattle.packed.specs.Sheets.{first_words, head_words};
ghost use Rattle.allowed.specs.Senses.{side_of};
ghost use Rattle.diagram.specs.Words.{room_of, records_of};
ghost use Rattle.rules.specs.Sides.{side_sense};
ghost use Rattle.packed.specs.Words.{count_word, begun_with};

use crate::words::{count_word, put_words};
use crate::work::Cost;
use diagram::diagram::Diagram;
use diagram::room::Room;
use rules::side::{SideRule, SideState};

/// The bytes ahead of the musts.
const MUSTS: usize = 24;

/// The words ahead of the musts, of a diagram on which so many calls were made.
fn first_words(
    room: Room<'_>,
    diagram: &Diagram<'_, '_, SideState, Cost>,
    rule: &SideRule<'_>,
    calls: usize,
) -> [u32; 6]
    requires room { room_of diagram.now ≡ room }
    requires rule { side_sense rule.now ≡ side_of room.round.now }
    ensures { result
        ≡ first_words room.entry.round.now room.entry.width (count_word calls)
        (records_of diagram.now) }
{
    let n = count_word(room.round.n);
    let calls = count_word(calls);
    let settled = u32::from(diagram.settled(rule));
    match diagram.bound() {
        Some((doors, minutes)) => [n, calls, settled, 1, doors, minutes],
        None => [n, calls, settled, 0, 0, 0],
    }
}

/// Writes what the diagram is asked after so many calls.
pub(crate) fn put_head(
    room: Room<'_>,
    diagram: &Diagram<'_, '_, SideState, Cost>,
    rule: &SideRule<'_>,
    calls: usize,
    out: &mut [u8],
)
    requires room { room_of diagram.now ≡ room }
    requires rule { side_sense rule.now ≡ side_of room.round.now }
    requires fits { 88 ≤ length out.old }
    ensures { out.new
        ≡ begun_with (head_words room.entry.round.now room.entry.width (count_word calls)
        (records_of diagram.now)) out.old }
{
    put_words(&mut out[MUSTS..], &diagram.musts()[1..]);
    put_words(out, &first_words(room, diagram, rule, calls));
}
