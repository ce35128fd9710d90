//! What is read off a diagram: the nodes of its layers, and whether doors are one of its paths.
use crate::rounds::round_of;
use diagram::diagram::Diagram;
use diagram::reading::ReadingForm;
use diagram::room::Room;
use doors::DoorSet;
use labels::blank::blank_node;
use layers::call::Call;
use layers::refusal::Refusal;
use round::table::Round;
use round_sheet::sheet::Place;
use rules::both::Both;
use rules::side::SideState;
use std::test::Fail;
use tallies::late::LateDoors;

/// A form of the side rules together, and of late doors.
type Form<'a, 'n> = ReadingForm<'a, 'n, SideState, (u32, u32)>;

/// Three doors that are open all day and due at 0, with a minute of work at each and no drives, where 2 comes ahead of 1. Each
/// order has three late doors, by 1, 2 and 3 minutes.
const PAIRED: &[u8] =
    b"round\t3\t0\t0\ndoor\t1\t0\t9999\t0\t1\t0\ndoor\t2\t0\t9999\t0\t1\t0\ndoor\t3\t0\t9999\t0\t1\t0\ndrive\t0\t0\t0\t0\ndrive\t1\t-\t0\t0\ndrive\t2\t0\t-\t0\ndrive\t3\t0\t0\t-\nfirst\t2\t1\n";

/// A place more than the widest layer has nodes.
const WIDTH: usize = 4;

/// The calls after opening, and for layers 0 to 3 the last places of each node, as sets: bit 0 is the yard.
type Stage<'a> = (&'a [Call<(u32, u32)>], [&'a [DoorSet]; 4]);

/// Opened, refined, and with no path left. Refined, layer 1 has a node for door 2 and one for door 3, and layer 2 one for each of
/// the orders 2, 1 and 2, 3 and 3, 2.
static STAGES: [Stage<'static>; 3] = [
    (&[], [&[1], &[14], &[14], &[14]]),
    (&[Call::Refine], [&[1], &[4, 8], &[2, 8, 4], &[10]]),
    (
        &[Call::Refine, Call::Cut { ceiling: (3, 5) }],
        [&[1], &[], &[], &[]],
    ),
];

/// What is answered at each stage.
type Told = [Result<bool, Refusal>; 3];

const ALLOWED: Told = [Ok(true), Ok(true), Ok(false)];

const OTHER: Told = [Ok(true), Ok(false), Ok(false)];

const NO_DOOR: Told = [Err(Refusal::NoDoor); 3];

const WRONG_LENGTH: Told = [Err(Refusal::WrongLength); 3];

/// Lists of doors: allowed orders, others, some of them with a door twice, then numbers that are no door, and lists too short or
/// too long, some of them with such numbers too.
static LISTS: [(&[usize], Told); 18] = [
    (&[2, 1, 3], ALLOWED),
    (&[2, 3, 1], ALLOWED),
    (&[3, 2, 1], ALLOWED),
    (&[1, 2, 3], OTHER),
    (&[3, 1, 2], OTHER),
    (&[2, 2, 2], OTHER),
    (&[3, 3, 2], OTHER),
    (&[2, 1, 1], OTHER),
    (&[0, 2, 1], NO_DOOR),
    (&[2, 4, 1], NO_DOOR),
    (&[2, 1, 17], NO_DOOR),
    (&[2, 1, usize::MAX], NO_DOOR),
    (&[], WRONG_LENGTH),
    (&[2, 1], WRONG_LENGTH),
    (&[2, 1, 3, 1], WRONG_LENGTH),
    (&[2, 4], WRONG_LENGTH),
    (&[0], WRONG_LENGTH),
    (&[2, 1, 3, 0], WRONG_LENGTH),
];

/// Whether the nodes of a layer have these last places, one after another.
fn has_lasts(layer: &[Place], lasts: &[DoorSet]) -> bool {
    layer.len() == lasts.len()
        && layer
            .iter()
            .zip(lasts)
            .all(|(node, &last)| node.label.down.lasts == last)
}

/// Layer i of a form that is gone when the layer is read.
fn layer_of<'n>(form: Form<'_, 'n>, i: usize) -> Result<&'n [Place], Refusal> {
    form.layer(i)
}

/// Whether each list is answered as it should be at this stage.
fn has_answers(form: &Form<'_, '_>, stage: usize) -> bool {
    for (doors, told) in &LISTS {
        if told.get(stage) != Some(&form.holds(doors)) {
            return false;
        }
    }
    true
}

/// What is read at a stage: of the diagram and of forms that it lends, and once it is closed for good.
fn check_stage(
    round: &Round,
    stage: usize,
    calls: &[Call<(u32, u32)>],
    lasts: &[&[DoorSet]; 4],
) -> Result<(), Fail> {
    let rule = Both::of(round);
    let tally = LateDoors::of(round);
    let mut records = [blank_node(&rule, &tally); 13];
    let room = Room::check(round, WIDTH, records.len())?;
    let mut diagram = Diagram::open(room, &rule, &tally, &mut records);
    diagram.run(&rule, &tally, calls);
    for (i, lasts) in lasts.iter().enumerate() {
        if !has_lasts(layer_of(diagram.reading_form(), i)?, lasts) {
            return Err(Fail::new("a layer"));
        }
    }
    for (doors, told) in &LISTS {
        if told.get(stage) != Some(&diagram.holds(doors)) {
            return Err(Fail::new("an answer"));
        }
    }
    let form = diagram.close();
    if !has_answers(&form, stage) {
        return Err(Fail::new("an answer, closed"));
    }
    if form.layer(4).err() != Some(Refusal::NoLayer) {
        return Err(Fail::new("a layer after the end"));
    }
    if !has_lasts(layer_of(form, 2)?, lasts[2]) {
        return Err(Fail::new("a layer, closed"));
    }
    Ok(())
}

#[test]
fn a_diagram_is_read_at_each_stage() -> Result<(), Fail> {
    let round = round_of(PAIRED)?;
    for (stage, (calls, lasts)) in STAGES.iter().enumerate() {
        check_stage(&round, stage, calls, lasts)?;
    }
    Ok(())
}
