//! Opening a diagram.
ghost use Rattle.std.specs.Prelude.{◌≡◌, ◌+◌, ◌*◌, ◌≤◌, List, length};
ghost use Rattle.layers.specs.declared.call.Call.{Call as ACall};
ghost use Rattle.layers.specs.Calls.{after_open, after_calls};
ghost use Rattle.layers.specs.Claim.{ClaimHolds, WholeSettles};
ghost use Rattle.layers.specs.SweepLaws.{RefineSweepsOutFrom};
ghost use Rattle.diagram.specs.Words.{room_of, records_of, setting_of};

use super::Diagram;
use crate::lay::lay_arcs;
use crate::room::Room;
use labels::relabel::relabel;
use layers::node::Node;
use layers::setting::Setting;
use rules::rule::Rule;
use tallies::tally::Tally;

impl<'a, 'n, S: Copy, V: Copy> Diagram<'a, 'n, S, V> {
    /// A node in each layer, and an arc for every door from each but the end. The list is long enough, as the check has found.
    /// Whatever calls follow, and in whatever order, nothing allowed is lost that no ceiling rules out, a refine that answers
    /// whole leaves the diagram settled, and after any refine a sweep takes out nothing.
    pub fn open<R: Rule<State = S>, T: Tally<Value = V>>(
        room: Room<'a>,
        rule: &R,
        tally: &T,
        nodes: &'n mut [Node<S, V>],
    ) -> Diagram<'a, 'n, S, V>
        requires { room.round.now.n * room.width + 1 ≤ length nodes.old }
        ensures room { room_of result ≡ room.entry }
        ensures records { let by = setting_of result (R.sense rule.now) (T.sense tally.now) in
            records_of result ≡ after_open by nodes.old }
        ensures lender { result.nodes.ghost_name ≡ nodes.entry.ghost_name }
        ensures claim { let by = setting_of result (R.sense rule.now) (T.sense tally.now) in
            R.serves rule.now by.round.n → T.serves tally.now by.round.n
            → (cs : List (ACall V))
            → ClaimHolds by (R.keeps rule.now) cs (after_calls by cs (records_of result)) }
        ensures whole { let by = setting_of result (R.sense rule.now) (T.sense tally.now) in
            R.serves rule.now by.round.n
            → (cs : List (ACall V)) → WholeSettles by (after_calls by cs (records_of result)) }
        ensures swept_out { let by = setting_of result (R.sense rule.now) (T.sense tally.now) in
            R.serves rule.now by.round.n → RefineSweepsOutFrom by (records_of result) }
    {
        lay_arcs(nodes, room.round.n, room.width);
        let by = Setting {
            round: room.round,
            rule,
            tally,
            width: room.width,
        };
        relabel(&by, nodes);
        Diagram { room, nodes }
    }
}
