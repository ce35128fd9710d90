//! What every filter does: arcs are taken out, then the list is tidied and labelled anew.
ghost use Rattle.std.specs.Prelude.{◌≡◌, ◌-◌, ◌*◌, ◌==◌, true, if◌then◌else◌, length, take};
ghost use Rattle.std.specs.List.{AllByRecursion};
ghost use Rattle.layers.specs.Settings.{lent_setting};
ghost use Rattle.labels.specs.Passes.{fits};
ghost use Rattle.filter.specs.Kept.{HasLabel};
ghost use Rattle.filter.specs.Steps.{arc_count, none_goes, thinned, anew, filter_steps, filter_labelled_steps, IsLabelled, FilterDone};

use crate::take::{Filter, take_from};
use crate::test::Test;
use labels::blank::blank_node;
use labels::relabel::{relabel, relabel_used};
use layers::node::Node;
use layers::setting::Setting;
use rules::rule::Rule;
use tallies::tally::Tally;
use tidying::tidy::tidy;

/// Takes out each arc that goes by the test, and answers how many arcs went. If any goes, tidies;
/// if none, the list stays as it is.
fn thin<R: Rule, T: Tally, F: Test<State = R::State, Value = T::Value>>(
    by: &Setting<'_, R, T>,
    test: &F,
    nodes: &mut [Node<R::State, T::Value>],
) -> usize
    requires room { fits by.now.round.now.n by.now.width (length nodes.old) ≡ true }
    requires fits { AllByRecursion (HasLabel (F.fits test.now))
        (take (by.now.round.now.n * by.now.width) nodes.old) }
    ensures steps { let by = lent_setting by.now (R.sense by.now.rule.now)
        (T.sense by.now.tally.now) in
        nodes.new ≡ thinned by (F.goes test.now by.round) nodes.old }
    ensures none { let r = by.now.round.now in
        (result == 0) ≡ none_goes (F.goes test.now r) r.n by.now.width nodes.old }
    ensures counted { result ≡ arc_count by.now.round.now.n by.now.width nodes.old -
        arc_count by.now.round.now.n by.now.width nodes.new }
{
    let filter = Filter {
        round: by.round,
        width: by.width,
        test,
    };
    let gone = take_from(&filter, 0, by.round.n, nodes);
    if gone == 0 {
        return 0;
    }
    let blank = blank_node(by.rule, by.tally);
    gone + tidy(by.round, nodes, by.width, &blank.label)
}

/// Works out the labels anew: all of them; or, of a list whose labels stood until so many arcs went, those of the nodes, if any
/// went.
fn label_anew<R: Rule, T: Tally>(
    by: &Setting<'_, R, T>,
    nodes: &mut [Node<R::State, T::Value>],
    labelled: bool,
    gone: usize,
)
    requires { fits by.now.round.now.n by.now.width (length nodes.old) ≡ true }
    ensures { let by = lent_setting by.now (R.sense by.now.rule.now)
        (T.sense by.now.tally.now) in
        nodes.new ≡ anew by labelled gone nodes.old }
{
    if !labelled {
        relabel(by, nodes);
    } else if gone != 0 {
        relabel_used(by, nodes);
    }
}

/// Takes out each arc that goes by the test, tidies and labels anew, and answers how many arcs went. Where `labelled` says that
/// the labels are those that this setting gives, so that the places that are not in use are blank, the list stays as it is if
/// no arc goes.
pub(crate) fn filter<R: Rule, T: Tally, F: Test<State = R::State, Value = T::Value>>(
    by: &Setting<'_, R, T>,
    test: &F,
    nodes: &mut [Node<R::State, T::Value>],
    labelled: bool,
) -> usize
    requires room { fits by.now.round.now.n by.now.width (length nodes.old) ≡ true }
    requires fits { AllByRecursion (HasLabel (F.fits test.now))
        (take (by.now.round.now.n * by.now.width) nodes.old) }
    ensures steps { let by = lent_setting by.now (R.sense by.now.rule.now)
        (T.sense by.now.tally.now) in
        nodes.new ≡ (if labelled then filter_labelled_steps by (F.goes test.now by.round) nodes.old
        else filter_steps by (F.goes test.now by.round) nodes.old) }
    ensures counted { result ≡ arc_count by.now.round.now.n by.now.width nodes.old -
        arc_count by.now.round.now.n by.now.width nodes.new }
    ensures words { let by = lent_setting by.now (R.sense by.now.rule.now)
        (T.sense by.now.tally.now) in
        (labelled ≡ true → IsLabelled by nodes.old)
        → FilterDone by (F.goes test.now by.round) nodes.old nodes.new result }
{
    let gone = thin(by, test, nodes);
    label_anew(by, nodes, labelled, gone);
    gone
}
