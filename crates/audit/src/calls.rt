//! Calls drawn by dice.
use crate::case::Case;
use crate::counts::note;
use crate::dice::Dice;
use layers::call::Call;
use layers::node::Node;
use orders::order::Order;
use round::table::Round;
use rules::rule::Rule;
use tallies::tally::Tally;

/// A layer, most often one that may be parted.
fn draw_layer(dice: &mut Dice, n: usize) -> usize {
    if n < 2 || dice.roll(6) == 0 {
        return dice.roll(n.saturating_add(2));
    }
    dice.roll(n - 1).saturating_add(1)
}

/// The number of a node, most often one that a layer of so many nodes has.
fn draw_node(dice: &mut Dice, count: usize) -> usize {
    match dice.roll(12) {
        0 => dice.roll(2).saturating_mul(count.saturating_add(1)),
        1..=4 => 1,
        _ => dice.roll(count).saturating_add(1),
    }
}

/// How many of the layer's places look as if in use; past the end what the list was lent with counts too.
fn count_nodes<S: Copy, V: Copy>(nodes: &[Node<S, V>], width: usize, layer: usize) -> usize {
    let first = layer.saturating_mul(width);
    let mut count = 0;
    for node in nodes.iter().skip(first).take(width) {
        note(&mut count, node.label.down.lasts != 0);
    }
    count
}

/// What the first `count` doors cost, by number from another one on.
fn rotated_cost<T: Tally>(round: &Round, tally: &T, from: usize, count: usize) -> T::Value {
    let mut doors = [0; 16];
    for k in 0..16 {
        doors[k] = from.saturating_add(k) % round.n + 1;
    }
    match Order::of(round, &doors[..count.min(16)]) {
        Some(order) => order.cost(tally),
        None => tally.start(),
    }
}

/// A part or a join in a layer of so many nodes.
fn draw_split<V>(dice: &mut Dice, is_part: bool, layer: usize, count: usize) -> Call<V> {
    let node = draw_node(dice, count);
    if is_part {
        return Call::Part { layer, node };
    }
    let other = draw_node(dice, count);
    let is_next = node == other && dice.roll(4) > 0;
    Call::Join {
        layer,
        first: node,
        second: other.saturating_add(usize::from(is_next)),
    }
}

impl<'a, R: Rule, T: Tally> Case<'a, R, T, T::Value> {
    /// A ceiling: most often the cost of an allowed order, else the cost of another order or of a part of one, or a bit more.
    fn draw_ceiling(&self, dice: &mut Dice) -> T::Value {
        let kind = dice.roll(8);
        let from = dice.roll(16);
        let at = dice.roll(self.orders.len());
        let n = self.round.n;
        match self.orders.get(at) {
            Some(order) if kind < 5 => order.cost,
            Some(order) if kind == 5 => self.tally.step(order.cost, 1, 1, 1_000),
            _ if kind == 6 => rotated_cost(self.round, self.tally, from, n),
            _ => rotated_cost(self.round, self.tally, from, n.saturating_sub(1)),
        }
    }

    pub(crate) fn draw_call(
        &self,
        nodes: &[Node<R::State, T::Value>],
        dice: &mut Dice,
    ) -> Call<T::Value> {
        match dice.roll(18) {
            0 | 1 => Call::Sweep,
            10 | 11 => Call::Cut {
                ceiling: self.draw_ceiling(dice),
            },
            12 | 13 => Call::Refine,
            14..=17 => Call::Backsweep,
            kind => {
                let layer = draw_layer(dice, self.round.n);
                let count = count_nodes(nodes, self.width, layer);
                draw_split(dice, kind < 7, layer, count)
            }
        }
    }
}
