//! What a diagram is asked.
ghost use Rattle.std.specs.Prelude.{◌≡◌, ◌≢◌, ◌↔◌, ℕ, ◌*◌, ◌<◌, ◌≤◌, true, length, slice_index, IfOk};
ghost use Rattle.doors.specs.Orders.{IsDoor};
ghost use Rattle.doors.specs.Sets.{has};
ghost use Rattle.tallies.specs.Tallies.{TallySense};
ghost use Rattle.layers.specs.Calls.{bound, must_answer, is_settled, holds_answer};
ghost use Rattle.layers.specs.Claim.{IsPath, MustMeans};
ghost use Rattle.diagram.specs.Musts.{must_of, musts};
ghost use Rattle.diagram.specs.Reading.{round_in, width_in, records_in, setting_in};

use super::ReadingForm;
use crate::room::Room;
use doors::DoorSet;
use layers::node::Node;
use layers::refusal::Refusal;
use refine::settled::settled;
use rules::rule::Rule;
use seek::holds::holds;
use seek::must::{must, musts};

/// The value of the end, at place n * width.
fn end_value<S: Copy, V: Copy>(nodes: &[Node<S, V>], n: usize, width: usize) -> Option<V>
    requires n_bound { n ≤ 16 }
    requires width_bound { width ≤ 128 }
    requires width_in_bounds { n * width < length nodes.now }
    ensures { result ≡ bound n width nodes.now }
{
    let end = nodes[n * width];
    if end.label.down.lasts == 0 {
        None
    } else {
        Some(end.label.down.value)
    }
}

impl<'a, 'n, S: Copy, V: Copy> ReadingForm<'a, 'n, S, V> {
    /// The value of the end; none if there is no path. In a run with one rule and one tally that serve the round, no wanted order
    /// undercuts it.
    pub fn bound(&self) -> Option<V>
        ensures { result ≡ bound (round_in self.now).n (width_in self.now) (records_in self.now) }
    {
        let Room { round, width } = self.room;
        end_value(self.nodes, round.n, width)
    }

    /// Yes if door j stands ahead of door i on none of the paths. In a run with one rule and one tally that serve the round, i is
    /// then ahead of j in every wanted order.
    pub fn must(&self, i: usize, j: usize) -> Result<bool, Refusal>
        ensures answer { let n = (round_in self.now).n in
            result ≡ must_answer n (width_in self.now) i j (records_in self.now) }
        ensures paths { let n = (round_in self.now).n in
            IfOk result (MustMeans n (width_in self.now) i j (records_in self.now)) }
    {
        let Room { round, width } = self.room;
        let n = round.n;
        if i < 1 || i > n || j < 1 || j > n {
            return Err(Refusal::NoDoor);
        }
        if i == j {
            return Err(Refusal::SameDoor);
        }
        Ok(must(self.nodes, round.n, width, i, j))
    }

    /// All musts: element i is the set of the doors j of which must(i, j) is yes, and none where i is no door.
    pub fn musts(&self) -> [DoorSet; 17]
        ensures sets { let n = (round_in self.now).n in
            result ≡ musts n (width_in self.now) (records_in self.now) }
        // door j is in set i exactly when must(i, j) is answered yes
        ensures each { let n = (round_in self.now).n in
            (i j : ℕ) → has (slice_index result i) j
            ≡ must_of n (width_in self.now) (records_in self.now) i j }
        // and so, of two doors, exactly when j stands ahead of i on none of the paths
        ensures paths { let n = (round_in self.now).n in
            (i j : ℕ) → IsDoor n i → IsDoor n j → i ≢ j
            → MustMeans n (width_in self.now) i j (records_in self.now)
            (has (slice_index result i) j) }
    {
        let Room { round, width } = self.room;
        musts(self.nodes, round.n, width)
    }

    /// Yes if these doors, in this order, are read along a path; a door may come twice, as on a path.
    pub fn holds(&self, doors: &[usize]) -> Result<bool, Refusal>
        ensures answer { let n = (round_in self.now).n in
            result ≡ holds_answer n (width_in self.now) doors.now (records_in self.now) }
        ensures path { let n = (round_in self.now).n in IfOk result
            (λ yes. (yes ≡ true) ↔ IsPath n (width_in self.now) (records_in self.now) doors.now) }
    {
        let Room { round, width } = self.room;
        if doors.len() != round.n {
            return Err(Refusal::WrongLength);
        }
        if !doors.iter().all(|&door| round.has_door(door)) {
            return Err(Refusal::NoDoor);
        }
        Ok(holds(self.nodes, round.n, width, doors))
    }

    /// Yes if the in-arcs of each node agree and a sweep would take out nothing. In a run with one rule and one tally that serve the
    /// round, every path is an allowed order then. Whatever tally counts, it has no say in the answer.
    pub fn settled<R: Rule<State = S>>(&self, rule: &R) -> bool
        ensures { (t : TallySense V) → let by = setting_in self.now (R.sense rule.now) t in
            result ≡ is_settled by (records_in self.now) }
    {
        let Room { round, width } = self.room;
        settled(round, rule, self.nodes, width)
    }
}
