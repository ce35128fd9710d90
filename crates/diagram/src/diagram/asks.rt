//! What a diagram is asked.
ghost use Rattle.std.specs.Prelude.{◌≡◌, ◌↔◌, true, IfOk};
ghost use Rattle.tallies.specs.Tallies.{TallySense};
ghost use Rattle.layers.specs.Calls.{bound, must_answer, is_settled, holds_answer};
ghost use Rattle.diagram.specs.Words.{round_of, width_of, records_of, setting_of};
ghost use Rattle.layers.specs.Claim.{IsPath, MustMeans};

use super::Diagram;
use layers::node::Node;
use layers::refusal::Refusal;
use rules::rule::Rule;

impl<'a, 'n, S: Copy, V: Copy> Diagram<'a, 'n, S, V> {
    /// The records of the lent list as they stand, those after the end among them.
    pub fn nodes(&self) -> &[Node<S, V>]
        ensures { result.now ≡ records_of self.now }
    {
        &*self.nodes
    }

    /// The value of the end; none if there is no path. In a run with one rule and one tally that serve the round, no wanted order
    /// undercuts it.
    pub fn bound(&self) -> Option<V>
        ensures { result ≡ bound (round_of self.now).n (width_of self.now) (records_of self.now) }
    {
        self.reading_form().bound()
    }

    /// Yes if door j stands ahead of door i on none of the paths. In a run with one rule and one tally that serve the round, i is
    /// then ahead of j in every wanted order.
    pub fn must(&self, i: usize, j: usize) -> Result<bool, Refusal>
        ensures answer { let n = (round_of self.now).n in
            result ≡ must_answer n (width_of self.now) i j (records_of self.now) }
        ensures paths { let n = (round_of self.now).n in
            IfOk result (MustMeans n (width_of self.now) i j (records_of self.now)) }
    {
        self.reading_form().must(i, j)
    }

    /// Yes if these doors, in this order, are read along a path; a door may come twice, as on a path.
    pub fn holds(&self, doors: &[usize]) -> Result<bool, Refusal>
        ensures answer { let n = (round_of self.now).n in
            result ≡ holds_answer n (width_of self.now) doors.now (records_of self.now) }
        ensures path { let n = (round_of self.now).n in IfOk result
            (λ yes. (yes ≡ true) ↔ IsPath n (width_of self.now) (records_of self.now) doors.now) }
    {
        self.reading_form().holds(doors)
    }

    /// Yes if the in-arcs of each node agree and a sweep would take out nothing. In a run with one rule and one tally that serve the
    /// round, every path is an allowed order then. Whatever tally counts, it has no say in the answer.
    pub fn settled<R: Rule<State = S>>(&self, rule: &R) -> bool
        ensures { (t : TallySense V) → let by = setting_of self.now (R.sense rule.now) t in
            result ≡ is_settled by (records_of self.now) }
    {
        self.reading_form().settled(rule)
    }
}
