//! What is claimed of every diagram, as contracts for any rule and any tally.
ghost use Rattle.layers.specs.Claim.{ClaimAlwaysHolds, LabelsStand, SettledMeans, WholeSettlesAlways};
ghost use Rattle.layers.specs.LabelLaws.{LabelsMean};
ghost use Rattle.layers.specs.SweepLaws.{RefineSweepsOutAlways};
ghost use Rattle.layers.specs.TidyLaws.{TidyMeans, TidyStays};

use rules::rule::Rule;
use tallies::tally::Tally;

/// Only what a ceiling rules out can go missing, and nothing false is left once the diagram is settled: for every round that
/// the rule and the tally serve, every width, every lent list and every list of calls after opening.
pub fn nothing_lost<R: Rule, T: Tally>(rule: &R, tally: &T)
    ensures { ClaimAlwaysHolds (R.serves rule.now) (R.sense rule.now) (R.keeps rule.now)
        (T.serves tally.now) (T.sense tally.now) }
{}

/// In a run with one rule and one tally the labels that stand are those worked out from the arcs, and no later place is altered.
pub fn labels_stand<R: Rule, T: Tally>(rule: &R, tally: &T)
    ensures { LabelsStand (R.serves rule.now) (R.sense rule.now) (T.sense tally.now) }
{}

/// In such a run the diagram is settled exactly when the in-arcs of each node agree and a sweep would take out nothing.
pub fn settled_means<R: Rule, T: Tally>(rule: &R, tally: &T)
    ensures { SettledMeans (R.serves rule.now) (R.sense rule.now)
        (T.sense tally.now) }
{}

/// In such a run the sets of each node that stands are the doors on every path to it and on at least one, and likewise on from it
/// to the end; its finish is within the clock's bound for its layer, its value is one that the tally allows there, and its late is
/// not below any minute at which an order through it can leave it and keep all later hours.
pub fn labels_mean<R: Rule, T: Tally>(rule: &R, tally: &T)
    ensures { LabelsMean (R.serves rule.now) (R.sense rule.now) (T.serves tally.now)
        (T.sense tally.now) (T.allows tally.now) }
{}

/// In such a run refine that answers whole leaves the diagram settled.
pub fn whole_settles<R: Rule, T: Tally>(rule: &R, tally: &T)
    ensures { WholeSettlesAlways (R.serves rule.now) (R.sense rule.now)
        (T.sense tally.now) }
{}

/// In such a run refine, whether it answers whole or full, leaves a diagram of which a sweep takes out nothing.
pub fn refine_sweeps_out<R: Rule, T: Tally>(rule: &R, tally: &T)
    ensures { RefineSweepsOutAlways (R.serves rule.now) (R.sense rule.now)
        (T.sense tally.now) }
{}

/// Tidying any layers of arcs keeps every path and adds none, and exactly the nodes on a path stay, renumbered in their order.
/// It alters nothing exactly if each node lies on a path and no arc leads elsewhere.
pub fn tidy_means()
    ensures left { TidyMeans }
    ensures alone { TidyStays }
{}
