//! How a report reads: lines of fields, with tabs between the fields and a line feed at the end of each line.
use crate::named::OrderFault;
use crate::report::{NoOrder, Report};
use orders::verdict::Verdict;
use std::fmt;

/// A verdict's line, with no line feed.
#[derive(Clone, Copy, Debug, PartialEq, Eq)]
struct VerdictLine(Verdict);

impl fmt::Display for VerdictLine {
    ghost use Rattle.std.specs.Prelude.{Some};
    ghost use Rattle.order_report.specs.VerdictTexts.{verdict_line};

    ghost output = { λ line. Some (verdict_line line.0) };

    fn fmt<W: fmt::Write>(&self, f: &mut fmt::Formatter<W>) -> fmt::Result {
        match self.0 {
            Verdict::Allowed => write!(f, "allowed\tyes"),
            Verdict::Incomplete => write!(f, "allowed\tno\tincomplete"),
            Verdict::Closes(door) => write!(f, "allowed\tno\tcloses\t{door}"),
            Verdict::Breaks(door) => write!(f, "allowed\tno\trule\t{door}"),
        }
    }
}

/// Each door's finish on a line of its own, then whether the order is allowed, the driving, and how late it is.
impl fmt::Display for Report<'_> {
    ghost use Rattle.std.specs.Prelude.{Some};
    ghost use Rattle.order_report.specs.Texts.{report_text};

    ghost output = { λ report. Some (report_text report) };

    fn fmt<W: fmt::Write>(&self, f: &mut fmt::Formatter<W>) -> fmt::Result {
        for (door, minute) in self.doors.iter().zip(self.finishes.iter()) {
            write!(f, "finish\t{door}\t{minute}\n")?;
        }
        let verdict = VerdictLine(self.verdict);
        let (driving, (doors, minutes)) = (self.driving, self.late);
        write!(
            f,
            "{verdict}\ndriving\t{driving}\nlate\t{doors}\t{minutes}\n"
        )
    }
}

/// That there is no report, with no line feed, as the other refusals.
impl fmt::Display for NoOrder {
    ghost use Rattle.std.specs.Prelude.{Some, codes};

    ghost output = { λ _. Some (codes "refused\torder") };

    fn fmt<W: fmt::Write>(&self, f: &mut fmt::Formatter<W>) -> fmt::Result {
        write!(f, "refused\torder")
    }
}

/// What is wrong with the words, in plain words on one line, with no line feed.
impl fmt::Display for OrderFault<'_> {
    ghost use Rattle.std.specs.Prelude.{Some};
    ghost use Rattle.order_report.specs.FaultTexts.{fault_text};

    ghost output = { λ fault. Some (fault_text fault) };

    fn fmt<W: fmt::Write>(&self, f: &mut fmt::Formatter<W>) -> fmt::Result {
        match self {
            OrderFault::NoDoor { word, n } => write!(
                f,
                "'{word}' is no door of this round: its doors are 1 to {n}, in digits with no leading zero"
            ),
            OrderFault::Twice(door) => write!(f, "door {door} comes twice"),
            OrderFault::Missing(door) => write!(f, "door {door} is missing"),
        }
    }
}
