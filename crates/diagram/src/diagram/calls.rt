//! The calls that alter a diagram: each hands the lent list to the function that does the work.
ghost use Rattle.std.specs.Prelude.{◌≡◌, ◌+◌, ◌*◌, ◌≤◌, ◌++◌, List, length};
ghost use Rattle.layers.specs.declared.call.Call.{Call as ACall};
ghost use Rattle.layers.specs.declared.node.Node.{Node as ANode};
ghost use Rattle.layers.specs.Calls.{after_open, after_sweep, sweep_answer, after_cut, cut_answer, after_backsweep, backsweep_answer, after_part, part_answer, after_join, join_answer, after_refine, refine_answer, after_call, answer_of, after_calls};
ghost use Rattle.layers.specs.Claim.{ClaimHolds};
ghost use Rattle.layers.specs.Shape.{IsShaped, IsTimely};
ghost use Rattle.refine.specs.Answers.{IsInnerIfFull};
ghost use Rattle.diagram.specs.Answers.{IfRefined};
ghost use Rattle.diagram.specs.Words.{room_of, round_of, records_of, setting_of};

use super::Diagram;
use crate::room::Room;
use filter::backsweep::backsweep;
use filter::cut::cut;
use filter::sweep::sweep;
use layers::call::{Answer, Call};
use layers::node::Node;
use layers::refined::Refined;
use layers::refusal::Refusal;
use layers::setting::Setting;
use refine::refine::refine;
use rules::rule::Rule;
use split::joining::join;
use split::parting::part;
use tallies::tally::Tally;

impl<'a, 'n, S: Copy, V: Copy> Diagram<'a, 'n, S, V> {
    /// Takes out each arc that one of the six tests bars, by the labels that stand, and answers how many arcs went.
    pub fn sweep<R: Rule<State = S>, T: Tally<Value = V>>(&mut self, rule: &R, tally: &T) -> usize
        ensures room { room_of self.new ≡ room_of self.old }
        ensures records { let by = setting_of self.old (R.sense rule.now) (T.sense tally.now) in
            records_of self.new ≡ after_sweep by (records_of self.old) }
        ensures answer { let by = setting_of self.old (R.sense rule.now) (T.sense tally.now) in
            result ≡ sweep_answer by (records_of self.old) }
        ensures lender { self.new.nodes.ghost_name ≡ self.old.nodes.ghost_name }
    {
        let Room { round, width } = self.room;
        let by = Setting {
            round,
            rule,
            tally,
            width,
        };
        sweep(&by, self.nodes)
    }

    /// Takes out each arc whose arrival has a value above the ceiling, by the labels that stand, and answers how many arcs went.
    pub fn cut<R: Rule<State = S>, T: Tally<Value = V>>(
        &mut self,
        rule: &R,
        tally: &T,
        ceiling: V,
    ) -> usize
        ensures room { room_of self.new ≡ room_of self.old }
        ensures records { let by = setting_of self.old (R.sense rule.now) (T.sense tally.now) in
            records_of self.new ≡ after_cut by ceiling (records_of self.old) }
        ensures answer { let by = setting_of self.old (R.sense rule.now) (T.sense tally.now) in
            result ≡ cut_answer by ceiling (records_of self.old) }
        ensures lender { self.new.nodes.ghost_name ≡ self.old.nodes.ghost_name }
    {
        let Room { round, width } = self.room;
        let by = Setting {
            round,
            rule,
            tally,
            width,
        };
        cut(&by, self.nodes, ceiling)
    }

    /// Takes out each arc over which its target is reached after the last minute to leave it, by the labels that stand, and
    /// answers how many arcs went.
    pub fn backsweep<R: Rule<State = S>, T: Tally<Value = V>>(
        &mut self,
        rule: &R,
        tally: &T,
    ) -> usize
        ensures room { room_of self.new ≡ room_of self.old }
        ensures records { let by = setting_of self.old (R.sense rule.now) (T.sense tally.now) in
            records_of self.new ≡ after_backsweep by (records_of self.old) }
        ensures answer { let by = setting_of self.old (R.sense rule.now) (T.sense tally.now) in
            result ≡ backsweep_answer by (records_of self.old) }
        ensures lender { self.new.nodes.ghost_name ≡ self.old.nodes.ghost_name }
    {
        let Room { round, width } = self.room;
        let by = Setting {
            round,
            rule,
            tally,
            width,
        };
        backsweep(&by, self.nodes)
    }

    /// Parts a node: the in-arcs that differ from the first in what arrives over them go to a new last node of its layer, which has
    /// the same out-arcs. A refusal alters nothing.
    pub fn part<R: Rule<State = S>, T: Tally<Value = V>>(
        &mut self,
        rule: &R,
        tally: &T,
        layer: usize,
        node: usize,
    ) -> Result<(), Refusal>
        ensures room { room_of self.new ≡ room_of self.old }
        ensures records { let by = setting_of self.old (R.sense rule.now) (T.sense tally.now) in
            records_of self.new ≡ after_part by layer node (records_of self.old) }
        ensures answer { let by = setting_of self.old (R.sense rule.now) (T.sense tally.now) in
            result ≡ part_answer by layer node (records_of self.old) }
        ensures lender { self.new.nodes.ghost_name ≡ self.old.nodes.ghost_name }
    {
        let Room { round, width } = self.room;
        let by = Setting {
            round,
            rule,
            tally,
            width,
        };
        part(&by, self.nodes, layer, node)
    }

    /// Joins two nodes of a layer: the one with the lower number takes the in-arcs and the out-arcs of both. A refusal alters nothing.
    pub fn join<R: Rule<State = S>, T: Tally<Value = V>>(
        &mut self,
        rule: &R,
        tally: &T,
        layer: usize,
        a: usize,
        b: usize,
    ) -> Result<(), Refusal>
        ensures room { room_of self.new ≡ room_of self.old }
        ensures records { let by = setting_of self.old (R.sense rule.now) (T.sense tally.now) in
            records_of self.new ≡ after_join by layer a b (records_of self.old) }
        ensures answer { let by = setting_of self.old (R.sense rule.now) (T.sense tally.now) in
            result ≡ join_answer by layer a b (records_of self.old) }
        ensures lender { self.new.nodes.ghost_name ≡ self.old.nodes.ghost_name }
    {
        let Room { round, width } = self.room;
        let by = Setting {
            round,
            rule,
            tally,
            width,
        };
        join(&by, self.nodes, layer, a, b)
    }

    /// Sweeps and parts from layer to layer, as long as there is room, then sweeps until nothing is taken out.
    pub fn refine<R: Rule<State = S>, T: Tally<Value = V>>(
        &mut self,
        rule: &R,
        tally: &T,
    ) -> Refined
        ensures room { room_of self.new ≡ room_of self.old }
        ensures records { let by = setting_of self.old (R.sense rule.now) (T.sense tally.now) in
            records_of self.new ≡ after_refine by (records_of self.old) }
        ensures within { IsInnerIfFull (round_of self.old).n result }
        ensures answer { let by = setting_of self.old (R.sense rule.now) (T.sense tally.now) in
            result ≡ refine_answer by (records_of self.old) }
        ensures lender { self.new.nodes.ghost_name ≡ self.old.nodes.ghost_name }
    {
        let Room { round, width } = self.room;
        let by = Setting {
            round,
            rule,
            tally,
            width,
        };
        refine(&by, self.nodes)
    }

    /// One of these six calls, and what it answers.
    #[tactic(auto, unfolding(layers::specs::Calls::after_call, layers::specs::Calls::answer_of))]
    pub fn call<R: Rule<State = S>, T: Tally<Value = V>>(
        &mut self,
        rule: &R,
        tally: &T,
        call: Call<V>,
    ) -> Answer
        ensures room { room_of self.new ≡ room_of self.old }
        ensures records { let by = setting_of self.old (R.sense rule.now) (T.sense tally.now) in
            records_of self.new ≡ after_call by call (records_of self.old) }
        ensures within { IfRefined result (IsInnerIfFull (round_of self.old).n) }
        ensures answer { let by = setting_of self.old (R.sense rule.now) (T.sense tally.now) in
            result ≡ answer_of by call (records_of self.old) }
        ensures lender { self.new.nodes.ghost_name ≡ self.old.nodes.ghost_name }
    {
        match call {
            Call::Sweep => Answer::Removed(self.sweep(rule, tally)),
            Call::Part { layer, node } => Answer::Done(self.part(rule, tally, layer, node)),
            Call::Join {
                layer,
                first,
                second,
            } => Answer::Done(self.join(rule, tally, layer, first, second)),
            Call::Cut { ceiling } => Answer::Removed(self.cut(rule, tally, ceiling)),
            Call::Refine => Answer::Refined(self.refine(rule, tally)),
            Call::Backsweep => Answer::Removed(self.backsweep(rule, tally)),
        }
    }

    /// Calls, one after another, whatever each answers. If they follow on a list of calls since the diagram was opened, nothing
    /// allowed is lost that no ceiling of any of them rules out, and nothing false is left once the diagram is settled.
    pub fn run<R: Rule<State = S>, T: Tally<Value = V>>(
        &mut self,
        rule: &R,
        tally: &T,
        calls: &[Call<V>],
    )
        ensures room { room_of self.new ≡ room_of self.old }
        ensures records { let by = setting_of self.old (R.sense rule.now) (T.sense tally.now) in
            records_of self.new ≡ after_calls by calls.now (records_of self.old) }
        ensures claim { let by = setting_of self.old (R.sense rule.now) (T.sense tally.now) in
            R.serves rule.now by.round.n → T.serves tally.now by.round.n
            → (lent : List (ANode S V)) (before : List (ACall V))
            → records_of self.old ≡ after_calls by before (after_open by lent)
            → ClaimHolds by (R.keeps rule.now) (before ++ calls.now) (records_of self.new) }
        ensures lender { self.new.nodes.ghost_name ≡ self.old.nodes.ghost_name }
    {
        for call in calls {
            self.call(rule, tally, *call);
        }
    }
}
