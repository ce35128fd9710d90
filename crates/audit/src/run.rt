//! One round: opens its diagram, makes calls drawn by dice, and checks after each.
ghost use Rattle.std.specs.Prelude.{◌≡◌, length, IfOk};

use crate::case::{Case, LENT, is_same};
use crate::counts::{Counts, note};
use crate::dice::Dice;
use crate::fault::Fault;
use crate::outcome::Outcome;
use crate::seen::look;
use anyhow::anyhow;
use diagram::diagram::Diagram;
use diagram::room::Room;
use labels::blank::blank_node;
use layers::call::Call;
use layers::node::Node;
use layers::setting::Setting;
use lister::list::Listed;
use rules::rule::Rule;
use split::joining::join;
use split::parting::part;
use std::alloc::{AllocError, Global};
use tallies::tally::Tally;

/// What goes on from call to call.
#[derive(Drop)]
struct Log<V> {
    last: Call<V>,
    wanted: Vec<Listed<V>>,
    /// draws the lists of doors that the diagram is asked of
    lists: Dice,
}

/// A list to lend, of records that look as if in use: no diagram looks at them.
pub(crate) fn lent<R: Rule, T: Tally>(
    alloc: Global,
    rule: &R,
    tally: &T,
) -> Result<Vec<Node<R::State, T::Value>>, AllocError>
    ensures { IfOk result (λ nodes. length nodes.items ≡ LENT) }
{
    let mut mark = blank_node(rule, tally);
    mark.label.down.lasts = 11;
    vec![in alloc; mark; LENT]
}

impl<'a, R: Rule, T: Tally> Case<'a, R, T, T::Value> {
    /// Asks for room at two widths out of range and on a list that is too short by one record.
    fn ask_rooms(&self, counts: &mut Counts) {
        let end = self.round.n.saturating_mul(self.width);
        for (width, len) in [(0, LENT), (129, 0), (self.width, end)] {
            if let Err(refusal) = Room::check(self.round, width, len) {
                counts.refuse(refusal);
            }
        }
    }

    /// Asks for a part or a join on an empty list too.
    fn ask_short(&self, call: Call<T::Value>, counts: &mut Counts) {
        let by = Setting {
            round: self.round,
            rule: self.rule,
            tally: self.tally,
            width: self.width,
        };
        let mut none = [];
        let answer = match call {
            Call::Part { layer, node } => part(&by, &mut none, layer, node),
            Call::Join {
                layer,
                first,
                second,
            } => join(&by, &mut none, layer, first, second),
            _ => Ok(()),
        };
        if let Err(refusal) = answer {
            counts.refuse(refusal);
        }
    }

    /// The call before once more, or another one.
    fn next_call(
        &self,
        nodes: &[Node<R::State, T::Value>],
        last: Call<T::Value>,
        dice: &mut Dice,
        counts: &mut Counts,
    ) -> Call<T::Value> {
        let is_repeated = dice.roll(7) == 0;
        note(&mut counts.repeated, is_repeated);
        if is_repeated {
            last
        } else {
            self.draw_call(nodes, dice)
        }
    }

    /// Whether some allowed order costs this.
    fn has_cost(&self, cost: T::Value) -> bool {
        for order in self.orders {
            if is_same(self.tally, order.cost, cost) {
                return true;
            }
        }
        false
    }

    /// Orders that a cut rules out are no longer wanted.
    fn note_cut(
        &self,
        call: Call<T::Value>,
        wanted: &mut Vec<Listed<T::Value>>,
        counts: &mut Counts,
    ) {
        let Call::Cut { ceiling } = call else {
            return;
        };
        note(&mut counts.equalled, self.has_cost(ceiling));
        wanted.retain(|order| self.tally.not_above(order.cost, ceiling));
    }

    /// Looks at the diagram, and checks what is seen and what it is read as.
    fn check_now(
        &self,
        diagram: &Diagram<'_, '_, R::State, T::Value>,
        log: &mut Log<T::Value>,
        counts: &mut Counts,
    ) -> Result<(), Fault> {
        let seen = look(diagram, self.rule, counts);
        self.check(&seen, &log.wanted)?;
        self.check_reading(&diagram.reading_form(), &seen, &mut log.lists, counts)
    }

    fn one_call(
        &self,
        diagram: &mut Diagram<'_, '_, R::State, T::Value>,
        log: &mut Log<T::Value>,
        dice: &mut Dice,
        counts: &mut Counts,
    ) -> Result<(), Fault> {
        let call = self.next_call(diagram.nodes(), log.last, dice, counts);
        log.last = call;
        self.note_cut(call, &mut log.wanted, counts);
        self.ask_short(call, counts);
        let answer = diagram.call(self.rule, self.tally, call);
        counts.note_call(call, answer);
        self.check_now(diagram, log, counts)
    }

    fn some_calls(
        &self,
        diagram: &mut Diagram<'_, '_, R::State, T::Value>,
        log: &mut Log<T::Value>,
        dice: &mut Dice,
        counts: &mut Counts,
    ) -> Result<(), Fault> {
        self.check_now(diagram, log, counts)?;
        for _ in 0..dice.roll(5).saturating_add(6) {
            self.one_call(diagram, log, dice, counts)?;
        }
        Ok(())
    }

    /// The round's run.
    pub(crate) fn run(
        &self,
        alloc: Global,
        dice: &mut Dice,
        counts: &mut Counts,
    ) -> anyhow::Result<Outcome<T::Value>> {
        self.ask_rooms(counts);
        let Ok(room) = Room::check(self.round, self.width, LENT) else {
            return Err(anyhow!("no room for a diagram"));
        };
        let mut log = Log {
            last: Call::Sweep,
            wanted: self.orders.to_vec(alloc)?,
            lists: Dice::of(counts.rounds as u64),
        };
        let refused = counts.refused;
        let mut nodes = lent(alloc, self.rule, self.tally)?;
        let mut diagram = Diagram::open(room, self.rule, self.tally, &mut nodes);
        let ended = self.some_calls(&mut diagram, &mut log, dice, counts);
        let form = diagram.close();
        let outcome = Outcome {
            allowed: self.orders.len(),
            wanted: log.wanted.len(),
            refused: counts.refused.saturating_sub(refused),
            bound: form.bound(),
            settled: form.settled(self.rule),
            fault: ended.err(),
        };
        outcome.note(counts);
        Ok(outcome)
    }
}
