//! What the program `view` replies to a text, and to a layer that is asked for.
ghost use Rattle.std.specs.Prelude.{◌≡◌, IfOk};
ghost use Rattle.diagram.specs.Reading.{round_in, width_in, records_in};
ghost use Rattle.round_sheet.specs.Sheets.{refined_for};
ghost use Rattle.view_command.specs.Replies.{LeavesRecords, RepliesTo, Shows};

use cli::input::round_of;
use cli::output::{Reply, answered, refused};
use diagram::diagram::Diagram;
use diagram::room::Room;
use picture::drawing::{Form, Picture};
use picture::table::LayerTable;
use round::table::Round;
use round_sheet::sheet::{Place, RECORDS, WIDTH};
use rules::both::Both;
use std::alloc::{AllocError, Global};
use tallies::late::LateDoors;

/// The reply of which this is the diagram: all of it as a picture, or its layer of this number as a table.
fn reply_on(form: &Form<'_, '_>, layer: Option<usize>, alloc: Global) -> Result<Reply, AllocError>
    ensures { let n = (round_in form.now).n in
        IfOk result (Shows n (width_in form.now) layer (records_in form.now)) }
{
    match layer {
        None => answered(alloc, &Picture(form)),
        Some(i) => match form.layer(i) {
            Ok(nodes) => answered(alloc, &LayerTable(nodes)),
            Err(refusal) => refused(alloc, &refusal),
        },
    }
}

/// The reply about the round's diagram, which is opened and refined on the lent list.
fn reply_over(
    round: &Round,
    layer: Option<usize>,
    records: &mut [Place; RECORDS],
    alloc: Global,
) -> Result<Reply, AllocError>
    ensures reply { let xs = (refined_for round.now records.old).1 in
        IfOk result (Shows round.now.n 16 layer xs) }
    ensures records { records.new ≡ (refined_for round.now records.old).1 }
{
    let rule = Both::of(round);
    let tally = LateDoors::of(round);
    let room = Room {
        round,
        width: WIDTH,
    };
    let mut diagram = Diagram::open(room, &rule, &tally, records);
    diagram.refine(&rule, &tally);
    reply_on(&diagram.reading_form(), layer, alloc)
}

/// The reply to a text: the diagram of its round, or of this diagram the layer that is asked for. What is refused, the text or the
/// layer, is printed as its refusal. The diagram is made over the lent list; where the text is refused the list is as it was lent.
pub fn view_reply(
    text: &[u8],
    layer: Option<usize>,
    records: &mut [Place; RECORDS],
    alloc: Global,
) -> Result<Reply, AllocError>
    ensures reply { IfOk result (RepliesTo text.now layer records.old) }
    ensures records { LeavesRecords text.now records.old records.new }
{
    match round_of(text) {
        Ok(round) => reply_over(&round, layer, records, alloc),
        Err(refusal) => refused(alloc, &refusal),
    }
}
