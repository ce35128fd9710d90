//! Spoils what is seen of a diagram in many ways, and wants each fault found. The audit begins with this, since a check that finds
//! nothing would pass all rounds.
use crate::ahead::Ahead;
use crate::case::{Case, LENT};
use crate::counts::Counts;
use crate::dice::Dice;
use crate::draw::{draw, round_of};
use crate::fault::Fault;
use crate::run::lent;
use crate::seen::{Seen, look};
use anyhow::anyhow;
use diagram::diagram::Diagram;
use diagram::reading::ReadingForm;
use diagram::room::Room;
use layers::node::Arcs;
use lister::list::{Listed, list};
use round::table::Round;
use rules::both::Both;
use rules::rule::Rule;
use std::alloc::Global;
use tallies::late::LateDoors;
use tallies::tally::Tally;

/// A round of three doors with one allowed order, 1, 3, 2, whose cost is one late door and one late minute.
const THREE: &[u8] =
    b"round\t3\t0\t0\ndoor\t1\t0\t3\t3\t2\t0\ndoor\t2\t4\t9\t7\t2\t0\ndoor\t3\t3\t8\t6\t3\t0\ndrive\t0\t0\t0\t0\ndrive\t1\t-\t0\t0\ndrive\t2\t0\t-\t0\ndrive\t3\t0\t0\t-\n";

/// The width of its diagram: layer i begins at place 4 i. Refined, the diagram has the places 0, 4, 8 and the end alone, with the
/// path 1, 3, 2.
const WIDTH: usize = 4;

/// Three doors that are open all day, the last two of one keeper. The allowed orders are 2, 1, 3 and 3, 1, 2.
const KEPT: &[u8] =
    b"round\t3\t0\t0\ndoor\t1\t0\t9999\t9999\t1\t0\ndoor\t2\t0\t9999\t9999\t1\t0\ndoor\t3\t0\t9999\t9999\t1\t0\ndrive\t0\t0\t0\t0\ndrive\t1\t-\t0\t0\ndrive\t2\t0\t-\t0\ndrive\t3\t0\t0\t-\nkeeper\t2\t1\nkeeper\t3\t1\n";

/// Wide enough for all orders of three doors.
const WIDE: usize = 6;

/// Doors 1, `second` and `third`, as a listed order.
fn listed(second: usize, third: usize) -> Listed<(u32, u32)> {
    Listed {
        doors: [1, second, third, 0, 0, 0, 0, 0, 0, 0, 0, 0, 0, 0, 0, 0],
        cost: (1, 1),
    }
}

/// Another arc by a door from a place.
fn with_arc<V: Copy>(seen: &Seen<V>, place: usize, door: usize, to: u8) -> Seen<V> {
    let mut spoilt = *seen;
    if place < LENT && 1 <= door && door <= 16 {
        spoilt.arcs[place].to[door - 1] = to;
    }
    spoilt
}

/// A last minute to leave a place that is one minute less.
fn with_less_time<V: Copy>(seen: &Seen<V>, place: usize) -> Seen<V> {
    let mut spoilt = *seen;
    if place < LENT {
        spoilt.lates[place] = spoilt.lates[place].saturating_sub(1);
    }
    spoilt
}

/// An error unless a check found this fault.
fn want(found: Option<Fault>, fault: Fault) -> anyhow::Result<()> {
    if found == Some(fault) {
        Ok(())
    } else {
        Err(anyhow!("not found: {fault}"))
    }
}

impl<'a, R: Rule, T: Tally> Case<'a, R, T, T::Value> {
    /// The check finds this fault where each order of the list is wanted.
    fn find(&self, seen: &Seen<T::Value>, fault: Fault) -> anyhow::Result<()> {
        want(self.check(seen, self.orders).err(), fault)
    }

    /// The form of the three doors holds 1, 3, 2 alone: other arcs and minutes than it has are found.
    fn find_in_form(
        &self,
        form: &ReadingForm<'_, '_, R::State, T::Value>,
        seen: &Seen<T::Value>,
    ) -> anyhow::Result<()> {
        for (place, door, to) in [(0, 1, 0), (4, 3, 0), (8, 2, 0), (8, 2, 2)] {
            let spoilt = with_arc(seen, place, door, to);
            let held = self.check_holds(form, &spoilt, &[1, 3, 2]);
            want(held.err(), Fault::HoldsWrong)?;
            want(self.check_layers(form, &spoilt).err(), Fault::LayerCount)?;
        }
        let spoilt = with_arc(seen, 0, 3, 1);
        let held = self.check_holds(form, &spoilt, &[3, 3, 2]);
        want(held.err(), Fault::HoldsWrong)?;
        want(self.check_layers(form, &spoilt).err(), Fault::LayerRecords)?;
        for place in [0, 4, 8, 12] {
            let spoilt = with_less_time(seen, place);
            want(self.check_layers(form, &spoilt).err(), Fault::LayerRecords)?;
        }
        Ok(())
    }
}

impl<'a, R: Rule, T: Tally<Value = (u32, u32)>> Case<'a, R, T, (u32, u32)> {
    /// Each way to spoil what is seen of the refined diagram of the three doors.
    fn find_in_seen(&self, seen: &Seen<(u32, u32)>) -> anyhow::Result<()> {
        if self.check(seen, self.orders).is_err() {
            return Err(anyhow!("a fault where none is"));
        }
        for (place, door) in [(0, 1), (4, 3), (8, 2)] {
            self.find(&with_arc(seen, place, door, 0), Fault::OrderLost)?;
        }
        self.find(&with_arc(seen, 0, 3, 1), Fault::PathNotAllowed)?;
        for place in [0, 4, 8, 12] {
            self.find(&with_less_time(seen, place), Fault::LateBelow)?;
        }
        for (bound, fault) in [
            (None, Fault::BoundMissing),
            (Some((1, 2)), Fault::BoundAbove),
            (Some((1, 0)), Fault::BoundNotLeast),
        ] {
            self.find(&Seen { bound, ..*seen }, fault)?;
        }
        let mut musts = seen.musts;
        musts.add(2, 3);
        self.find(&Seen { musts, ..*seen }, Fault::MustBroken)?;
        let musts = Ahead::of(&[1, 3]);
        self.find(&Seen { musts, ..*seen }, Fault::MustNotExact)
    }
}

/// The refined diagram of the three doors, spoilt, and held against a list without its order.
fn find_in_three(alloc: Global, round: &Round) -> anyhow::Result<()> {
    let rule = Both::of(round);
    let tally = LateDoors::of(round);
    let case = Case {
        round,
        rule: &rule,
        tally: &tally,
        width: WIDTH,
        orders: &[listed(3, 2)],
    };
    let Ok(room) = Room::check(round, WIDTH, LENT) else {
        return Err(anyhow!("no room for a diagram to spoil"));
    };
    let mut nodes = lent(alloc, &rule, &tally)?;
    let mut diagram = Diagram::open(room, &rule, &tally, &mut nodes);
    diagram.refine(&rule, &tally);
    let seen = look(&diagram, &rule, &mut Counts::default());
    case.find_in_seen(&seen)?;
    case.find_in_form(&diagram.close(), &seen)?;
    let none = Case {
        orders: &[],
        ..case
    };
    none.find(&seen, Fault::MorePaths)
}

/// The three doors with the keeper, their diagram refined under the rule of a round of one door: the sets of last doors have lost 2
/// and 3, so that nothing is barred after these. Refined under their own rule it has no fault, but where a third order is wanted.
fn find_in_kept(alloc: Global, round: &Round) -> anyhow::Result<()> {
    let one = Round::fresh();
    let rule = Both::of(round);
    let forgetful = Both::of(&one);
    let tally = LateDoors::of(round);
    let orders = list(alloc, round, &rule, &tally)?;
    let case = Case {
        round,
        rule: &rule,
        tally: &tally,
        width: WIDE,
        orders: orders.as_slice(),
    };
    let Ok(room) = Room::check(round, WIDE, LENT) else {
        return Err(anyhow!("no room for a diagram with lost doors"));
    };
    let mut nodes = lent(alloc, &rule, &tally)?;
    let mut diagram = Diagram::open(room, &forgetful, &tally, &mut nodes);
    diagram.refine(&forgetful, &tally);
    let seen = look(&diagram, &rule, &mut Counts::default());
    case.find(&seen, Fault::PathNotAllowed)?;
    diagram.refine(&rule, &tally);
    let seen = look(&diagram, &rule, &mut Counts::default());
    if case.check(&seen, case.orders).is_err() {
        return Err(anyhow!("a fault where no door is lost"));
    }
    let more = Case {
        orders: &[listed(2, 3)],
        ..case
    };
    more.find(&seen, Fault::OrderLost)
}

/// Arcs for every door in all layers of a round of 8 doors but the last: more lists are on the way than are looked at.
fn find_in_eight(round: &Round) -> anyhow::Result<()> {
    let case = Case {
        round,
        rule: &Both::of(round),
        tally: &LateDoors::of(round),
        width: 1,
        orders: &[],
    };
    let mut arcs = [Arcs { to: [1; 16] }; LENT];
    arcs[7] = Arcs { to: [0; 16] };
    let seen = Seen {
        arcs,
        lates: [0; LENT],
        bound: None,
        settled: true,
        musts: Ahead::none(),
    };
    case.find(&seen, Fault::TooManyPaths)
}

/// The run of the three doors held against a list that has 1, 2, 3 too, which is a path until something is swept: its fault is
/// counted and shown.
fn show_in_three(alloc: Global, round: &Round) -> anyhow::Result<()> {
    let case = Case {
        round,
        rule: &Both::of(round),
        tally: &LateDoors::of(round),
        width: WIDTH,
        orders: &[listed(2, 3), listed(3, 2)],
    };
    let mut counts = Counts::default();
    let outcome = case.run(alloc, &mut Dice::of(1), &mut counts)?;
    let shown = format!(in alloc; "{outcome}")?;
    if counts.faults == 1 && shown.as_str() == "settled\tyes\ta wanted order is no path" {
        return Ok(());
    }
    Err(anyhow!("a fault is not counted, or shown as {shown}"))
}

/// Finds each fault.
pub(crate) fn find_all(alloc: Global) -> anyhow::Result<()> {
    let three = round_of(THREE)?;
    let kept = round_of(KEPT)?;
    let eight = round_of(draw(alloc, &mut Dice::of(1), 8)?.as_bytes())?;
    find_in_three(alloc, &three)?;
    find_in_kept(alloc, &kept)?;
    find_in_eight(&eight)?;
    show_in_three(alloc, &three)
}
