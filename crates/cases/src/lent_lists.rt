//! What no clause can say: that a refusal shows itself, and that calls end as they should.
use crate::rounds::text_of;
use diagram::lent::{bound_after, opened_or_left, worked_on};
use labels::blank::blank_node;
use layers::call::Call;
use layers::refusal::Refusal;
use layers::setting::Setting;
use round::table::Round;
use round_sheet::sheet::Place;
use rules::both::Both;
use rules::rule::Rule;
use rules::side::SideState;
use std::test::Fail;
use tallies::late::LateDoors;
use tallies::tally::Tally;

static LINES: [(Refusal, &str); 11] = [
    (Refusal::Width, "refused\t10\t0\t0"),
    (Refusal::Short, "refused\t11\t0\t0"),
    (Refusal::NoLayer, "refused\t20\t0\t0"),
    (Refusal::NoNode, "refused\t21\t0\t0"),
    (Refusal::NoDoor, "refused\t22\t0\t0"),
    (Refusal::OneGroup, "refused\t23\t0\t0"),
    (Refusal::LayerFull, "refused\t24\t0\t0"),
    (Refusal::SameNode, "refused\t25\t0\t0"),
    (Refusal::Clash, "refused\t26\t0\t0"),
    (Refusal::SameDoor, "refused\t27\t0\t0"),
    (Refusal::WrongLength, "refused\t28\t0\t0"),
];

#[test]
fn each_refusal_is_shown(rt: HostRuntime) -> Result<(), Fail> {
    for (refusal, line) in &LINES {
        assert_eq!(rt; text_of(rt.alloc(), *refusal)?.as_str(), *line);
    }
    Ok(())
}

/// The bound that a diagram of one door at width 2 leaves on its list; none if no path is left.
fn bound_on(records: &[Place]) -> Option<(u32, u32)> {
    let end = records.last()?.label.down;
    if end.lasts == 0 {
        None
    } else {
        Some(end.value)
    }
}

/// A fresh round has one door, due and closed at minute 0, at which one minute of work is done: one late door, by one minute.
#[test]
fn a_list_is_opened_and_given_back(rt: HostRuntime) {
    let round = Round::fresh();
    let rule = Both::of(&round);
    let tally = LateDoors::of(&round);
    let mut records = [blank_node(&rule, &tally); 3];
    assert!(rt; !opened_or_left(&round, 129, &rule, &tally, &mut records));
    assert!(rt; opened_or_left(&round, 2, &rule, &tally, &mut records));
    assert_eq!(rt; bound_on(&records), Some((1, 1)));
}

/// The bound that calls leave, or the refusal.
type Left = Result<Option<(u32, u32)>, Refusal>;

/// The door closes at 0, so a sweep leaves no path; a backsweep looks at the doors after an arc's own, of which there are none.
static CALLS: [(usize, &[Call<(u32, u32)>], Left); 6] = [
    (
        2,
        &[
            Call::Part { layer: 1, node: 1 },
            Call::Cut { ceiling: (1, 1) },
        ],
        Ok(Some((1, 1))),
    ),
    (2, &[Call::Cut { ceiling: (1, 0) }], Ok(None)),
    (2, &[Call::Backsweep], Ok(Some((1, 1)))),
    (2, &[Call::Sweep, Call::Refine], Ok(None)),
    (3, &[Call::Sweep, Call::Refine], Err(Refusal::Short)),
    (0, &[Call::Sweep, Call::Refine], Err(Refusal::Width)),
];

/// Whether the calls leave what is wanted, as it is looked at on the list and as it is answered.
fn is_left<R: Rule<State = SideState>, T: Tally<Value = (u32, u32)>>(
    setting: &Setting<'_, R, T>,
    records: &mut [Place],
    calls: &[Call<(u32, u32)>],
    want: Left,
) -> bool {
    let left = match worked_on(setting, records, calls) {
        Ok(()) => Ok(bound_on(records)),
        Err(refusal) => Err(refusal),
    };
    left == want && bound_after(setting, records, calls) == want
}

#[test]
fn calls_are_done_on_it(rt: HostRuntime) {
    let round = Round::fresh();
    let rule = Both::of(&round);
    let tally = LateDoors::of(&round);
    let mut records = [blank_node(&rule, &tally); 3];
    for (width, calls, want) in &CALLS {
        let setting = Setting {
            round: &round,
            width: *width,
            rule: &rule,
            tally: &tally,
        };
        assert!(rt; is_left(&setting, &mut records, calls, *want), "{width}");
    }
}
