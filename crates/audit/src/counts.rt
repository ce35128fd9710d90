//! How often what happened, over all rounds.
use doors::{contains, with};
use layers::call::{Answer, Call};
use layers::refined::Refined;
use layers::refusal::Refusal;
use std::fmt;

/// What is counted; the lines at the end, below, say what each count is.
#[derive(Clone, Copy, Default)]
pub(crate) struct Counts {
    pub(crate) rounds: usize,
    /// by the number of doors
    pub(crate) doors: [usize; 7],
    pub(crate) ring: usize,
    pub(crate) pairs: usize,
    pub(crate) tight: usize,
    pub(crate) loose: usize,
    pub(crate) load: usize,
    pub(crate) equal: usize,
    pub(crate) grids: usize,
    pub(crate) by_grid: usize,
    pub(crate) keepers: usize,
    pub(crate) by_keepers: usize,
    pub(crate) none: usize,
    pub(crate) one: usize,
    pub(crate) many: usize,
    pub(crate) between: usize,
    pub(crate) telling: usize,
    pub(crate) sweeps: usize,
    pub(crate) cuts: usize,
    pub(crate) backsweeps: usize,
    pub(crate) repeated: usize,
    pub(crate) equalled: usize,
    pub(crate) parted: usize,
    pub(crate) joined: usize,
    pub(crate) whole: usize,
    pub(crate) full: usize,
    pub(crate) paths: usize,
    pub(crate) paths_twice: usize,
    pub(crate) others: usize,
    pub(crate) others_twice: usize,
    /// by number: those to open, of a must, on a short list, of a list of doors and of a layer that is read too
    pub(crate) refusals: [usize; 32],
    pub(crate) calls: usize,
    pub(crate) refused: usize,
    pub(crate) allowed: usize,
    pub(crate) settled: usize,
    pub(crate) faults: usize,
}

/// Counts one more if it is so.
pub(crate) fn note(count: &mut usize, is_so: bool) {
    *count = count.saturating_add(usize::from(is_so));
}

/// Whether some door comes twice.
fn has_repeat(doors: &[usize]) -> bool {
    let mut met = 0;
    for door in doors {
        if contains(met, *door) {
            return true;
        }
        met = with(met, *door);
    }
    false
}

impl Counts {
    pub(crate) fn refuse(&mut self, refusal: Refusal) {
        if let Some(count) = self.refusals.get_mut(usize::from(refusal.number())) {
            note(count, true);
        }
    }

    /// One more list of doors, which is a path or none.
    pub(crate) fn note_list(&mut self, doors: &[usize], is_path: bool) {
        let is_twice = has_repeat(doors);
        note(&mut self.paths, is_path);
        note(&mut self.paths_twice, is_path && is_twice);
        note(&mut self.others, !is_path);
        note(&mut self.others_twice, !is_path && is_twice);
    }

    /// One more call, with its answer.
    pub(crate) fn note_call<V: Copy>(&mut self, call: Call<V>, answer: Answer) {
        note(&mut self.calls, true);
        match (answer, call) {
            (Answer::Removed(arcs), Call::Cut { .. }) => note(&mut self.cuts, arcs > 0),
            (Answer::Removed(arcs), Call::Backsweep) => note(&mut self.backsweeps, arcs > 0),
            (Answer::Removed(arcs), _) => note(&mut self.sweeps, arcs > 0),
            (Answer::Done(Ok(())), Call::Join { .. }) => note(&mut self.joined, true),
            (Answer::Done(Ok(())), _) => note(&mut self.parted, true),
            (Answer::Refined(Refined::Whole), _) => note(&mut self.whole, true),
            (Answer::Refined(Refined::Full(_)), _) => note(&mut self.full, true),
            (Answer::Done(Err(refusal)), _) => {
                note(&mut self.refused, true);
                self.refuse(refusal);
            }
        }
    }
}

/// A count, with what stands ahead of it and after it.
type Row = (&'static str, usize, &'static str);

fn write_rows<W: fmt::Write>(f: &mut fmt::Formatter<W>, rows: &[Row]) -> fmt::Result {
    for (label, count, end) in rows {
        write!(f, "{label}\t{count}{end}")?;
    }
    Ok(())
}

impl Counts {
    fn kind_rows(&self) -> [Row; 15] {
        [
            ("pairs that close a ring", self.ring, "\t"),
            ("pairs that rule out an order", self.pairs, "\n"),
            ("hours that rule out an order", self.tight, "\t"),
            ("loose hours", self.loose, "\n"),
            ("a load that rules out an order", self.load, "\t"),
            ("two orders of the least cost", self.equal, "\n"),
            ("a grid above 1", self.grids, "\t"),
            ("a grid that rules out an order", self.by_grid, "\n"),
            ("rounds with keepers", self.keepers, "\t"),
            ("keepers that rule out an order", self.by_keepers, "\n"),
            ("rounds with no allowed order", self.none, "\t"),
            ("with one", self.one, "\t"),
            ("with more", self.many, "\n"),
            ("some ruled out by a ceiling", self.between, "\t"),
            ("settled with more than one wanted", self.telling, "\n"),
        ]
    }

    fn call_rows(&self) -> [Row; 9] {
        [
            ("sweeps that took out arcs", self.sweeps, "\t"),
            ("cuts that did", self.cuts, "\t"),
            ("backsweeps that did", self.backsweeps, "\n"),
            ("the call before again", self.repeated, "\t"),
            ("cuts at the cost of an order", self.equalled, "\n"),
            ("parted", self.parted, "\t"),
            ("joined", self.joined, "\t"),
            ("refined whole", self.whole, "\t"),
            ("refined full", self.full, "\n"),
        ]
    }

    fn list_rows(&self) -> [Row; 4] {
        [
            ("drawn lists that are paths", self.paths, "\t"),
            ("with a door twice", self.paths_twice, "\n"),
            ("drawn lists that are none", self.others, "\t"),
            ("with a door twice", self.others_twice, "\n"),
        ]
    }
}

impl fmt::Display for Counts {
    fn fmt<W: fmt::Write>(&self, f: &mut fmt::Formatter<W>) -> fmt::Result {
        for (n, rounds) in self.doors.iter().enumerate().skip(1) {
            write!(f, "rounds of {n} doors\t{rounds}\n")?;
        }
        write_rows(f, &self.kind_rows())?;
        write_rows(f, &self.call_rows())?;
        write_rows(f, &self.list_rows())?;
        for (number, count) in self.refusals.iter().enumerate() {
            if *count > 0 {
                write!(f, "refusal\t{number}\t{count}\n")?;
            }
        }
        let sums = [
            ("rounds", self.rounds, "\t"),
            ("calls", self.calls, "\t"),
            ("refused", self.refused, "\t"),
            ("allowed", self.allowed, "\t"),
            ("settled", self.settled, "\t"),
            ("faults", self.faults, "\n"),
        ];
        write_rows(f, &sums)
    }
}
