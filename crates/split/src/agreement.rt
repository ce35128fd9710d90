//! Whether the arrivals at a node agree. No value is looked at, so that the tally plays no part: a setting is enough that is
//! lent none, and the clauses hold with any.
ghost use Rattle.std.specs.Prelude.{◌≡◌, ◌<◌, ◌≤◌};
ghost use Rattle.tallies.specs.Tallies.{TallySense};
ghost use Rattle.layers.specs.declared.node.Node.{Node as ANode};
ghost use Rattle.layers.specs.Labels.{arrival_finish, all_agree, first_arrival};
ghost use Rattle.layers.specs.Settings.{Setting as ASetting, lent_setting};
ghost use Rattle.labels.specs.Passes.{arrivals};
ghost use Rattle.split.specs.Agreed.{brought_first, kept_there, kept_by};
ghost use Rattle.split.specs.Listed.{IsListed, written};

use crate::by_first::ByFirst;
use crate::dividing::first_leaving;
use crate::listing::{InArc, InArcs};
use crate::source::Source;
use labels::leg::leg_from;
use layers::node::{Down, Node};
use layers::setting::Setting;
use round::table::Round;
use rules::rule::Rule;

/// When the work at the arrival by door j would end, in u64 since any finish may stand.
pub(crate) fn finish_of<S: Copy, V: Copy>(round: &Round, u: &Down<S, V>, j: usize) -> u64
    requires { j < 17 }
    ensures { result ≡ arrival_finish round.now u.now j }
{
    let leg = leg_from(round, u.lasts, j);
    round.finish(u.finish, leg, j)
}

/// Whether what x brings by door j, with that finish, agrees in all, some, finish and state with what comes by that door from a
/// node with the label u.
#[inline(never)]
fn agrees_there<R: Rule, T, V: Copy>(
    by: &Setting<'_, R, T>,
    x: &Source<R::State, V>,
    finish: u64,
    u: &Down<R::State, V>,
    j: usize,
) -> bool
    requires door { j < 17 }
    requires finish { finish ≡ arrival_finish by.now.round.now x.now.label x.now.door }
    ensures { let s = by.now in
        result ≡ kept_there s.round.now (R.sense s.rule.now) x.now u.now j }
{
    let last = 1u32 << j;
    (x.label.all | last) == (u.all | last)
        && (x.label.some | last) == (u.some | last)
        && by
            .rule
            .same(by.rule.step(x.label.state, j), by.rule.step(u.state, j))
        && finish == finish_of(by.round, u, j)
}

/// The same of what x brings by any door, so that the last places have to agree too.
#[tactic(auto, unfolding(crate::specs::Agreed::kept_by))]
#[inline]
pub(crate) fn agrees<R: Rule, T, V: Copy>(
    by: &Setting<'_, R, T>,
    x: &Source<R::State, V>,
    finish: u64,
    u: &Down<R::State, V>,
    j: usize,
) -> bool
    requires door { j < 17 }
    requires finish { finish ≡ arrival_finish by.now.round.now x.now.label x.now.door }
    ensures { let s = by.now in
        result ≡ kept_by s.round.now (R.sense s.rule.now) x.now u.now j }
{
    x.door == j && agrees_there(by, x, finish, u, j)
}

/// The first of the listed in-arcs that leads to node t.
pub(crate) fn first_into<S: Copy, V: Copy>(
    us: &[Node<S, V>],
    list: &InArcs,
    t: u8,
) -> Option<Source<S, V>>
    requires one_le_t { 1 ≤ t }
    requires listed { IsListed us.now list.now }
    ensures { (by : ASetting S V)
        → brought_first by result ≡ first_arrival (arrivals by t (written us.now list.now)) }
{
    for m in list.starts[t as usize] as usize..list.many {
        if list.to[m] == t {
            let InArc { place, door } = list.arcs[m];
            return Some(Source {
                label: us[place as usize].label.down,
                door: door as usize + 1,
            });
        }
    }
    None
}

/// Whether the in-arcs of node t agree, of those that are listed from the records us.
pub(crate) fn alike<R: Rule, T, V: Copy>(
    by: &Setting<'_, R, T>,
    us: &[Node<R::State, V>],
    list: &InArcs,
    t: u8,
) -> bool
    requires one_le_t { 1 ≤ t }
    requires listed { IsListed us.now list.now }
    ensures { (tally : TallySense V)
        → let by = lent_setting by.now (R.sense by.now.rule.now) tally in
        result ≡ all_agree by.rule (arrivals by t (written us.now list.now)) }
{
    match first_into(us, list, t) {
        None => true,
        Some(first) => {
            let finish = finish_of(by.round, &first.label, first.door);
            let test = ByFirst { by, first, finish };
            first_leaving(&test, us, list, t).is_none()
        }
    }
}
