//! What the reading form of a diagram says and hands out, held against a walk over the records.
use crate::case::{Case, LENT};
use crate::counts::Counts;
use crate::dice::Dice;
use crate::fault::Fault;
use crate::paths::{first_gap, place_reached};
use crate::seen::Seen;
use diagram::reading::ReadingForm;
use layers::node::Arcs;
use rules::rule::Rule;
use tallies::tally::Tally;

/// How many lists of doors are drawn each time.
const DRAWN: usize = 12;

/// Doors of a round of n doors, each by itself, so that one may come twice.
fn draw_doors(dice: &mut Dice, n: usize) -> [usize; 16] {
    let mut doors = [0; 16];
    for door in doors.iter_mut() {
        *door = dice.roll(n).saturating_add(1);
    }
    doors
}

/// Puts in place of each door that has no arc the next one that has: so the list becomes a path, if there is one.
fn mend(doors: &mut [usize], arcs: &[Arcs], width: usize, n: usize) {
    for _ in 0..n.saturating_mul(n) {
        let Some(gap) = first_gap(arcs, width, doors) else {
            return;
        };
        if let Some(door) = doors.get_mut(gap) {
            *door = *door % n.max(1) + 1;
        }
    }
}

/// How many nodes the next layer has: the greatest number to which an arc leads from one of `count` places.
fn count_targets(arcs: &[Arcs], first: usize, count: usize) -> usize {
    let mut most = 0;
    for node in arcs.iter().skip(first).take(count) {
        for to in node.to {
            most = most.max(usize::from(to));
        }
    }
    most
}

impl<'a, R: Rule, T: Tally> Case<'a, R, T, T::Value> {
    /// Doors of the round: any, or those of a path, or those of an allowed order but for one.
    fn draw_list(&self, seen: &Seen<T::Value>, dice: &mut Dice) -> [usize; 16] {
        let n = self.round.n;
        let mut doors = draw_doors(dice, n);
        let kind = dice.roll(3);
        let at = dice.roll(self.orders.len());
        let other = dice.roll(n);
        match self.orders.get(at) {
            Some(order) if kind == 0 => {
                let door = doors[0];
                doors = order.doors;
                doors[other] = door;
            }
            _ if kind == 1 => mend(&mut doors[..n], &seen.arcs, self.width, n),
            _ => {}
        }
        doors
    }

    /// Whether doors of the round lead over arcs from the first node to the end; the form says the same.
    pub(crate) fn check_holds(
        &self,
        form: &ReadingForm<'_, '_, R::State, T::Value>,
        seen: &Seen<T::Value>,
        doors: &[usize],
    ) -> Result<bool, Fault> {
        let end = self.round.n.saturating_mul(self.width);
        let is_path = place_reached(&seen.arcs, self.width, doors) == Some(end);
        if form.holds(doors) == Ok(is_path) {
            Ok(is_path)
        } else {
            Err(Fault::HoldsWrong)
        }
    }

    /// Each layer has as many nodes as the arcs of the one before lead to.
    fn check_counts(
        &self,
        form: &ReadingForm<'_, '_, R::State, T::Value>,
        seen: &Seen<T::Value>,
    ) -> Result<(), Fault> {
        let mut count = 1;
        for i in 0..=self.round.n {
            match form.layer(i) {
                Ok(layer) if layer.len() == count => {}
                _ => return Err(Fault::LayerCount),
            }
            count = count_targets(&seen.arcs, i.saturating_mul(self.width), count);
        }
        Ok(())
    }

    /// The records of a layer are those at its first places.
    fn check_records(
        &self,
        form: &ReadingForm<'_, '_, R::State, T::Value>,
        seen: &Seen<T::Value>,
    ) -> Result<(), Fault> {
        for i in 0..=self.round.n {
            let Ok(layer) = form.layer(i) else {
                return Err(Fault::LayerRecords);
            };
            for (a, node) in layer.iter().enumerate() {
                let place = i.saturating_mul(self.width).saturating_add(a);
                if place >= LENT
                    || node.arcs.to != seen.arcs[place].to
                    || node.label.up.late != seen.lates[place]
                {
                    return Err(Fault::LayerRecords);
                }
            }
        }
        Ok(())
    }

    /// The form hands out each layer with all its nodes, and with their records.
    pub(crate) fn check_layers(
        &self,
        form: &ReadingForm<'_, '_, R::State, T::Value>,
        seen: &Seen<T::Value>,
    ) -> Result<(), Fault> {
        self.check_counts(form, seen)?;
        self.check_records(form, seen)
    }

    /// Asks for a layer after the end, and of lists with a number that is no door, two of which are too short or too long.
    fn ask_refused(
        &self,
        form: &ReadingForm<'_, '_, R::State, T::Value>,
        dice: &mut Dice,
        counts: &mut Counts,
    ) {
        let n = self.round.n;
        if let Err(refusal) = form.layer(n.saturating_add(1)) {
            counts.refuse(refusal);
        }
        let mut doors = draw_doors(dice, n);
        let at = dice.roll(n);
        doors[at] = dice.roll(2).saturating_mul(n.saturating_add(1));
        for len in [n.saturating_sub(1), n, n.saturating_add(1)] {
            if let Err(refusal) = form.holds(&doors[..len.min(16)]) {
                counts.refuse(refusal);
            }
        }
    }

    /// The layers, and what is said of each allowed order and of lists drawn by dice.
    pub(crate) fn check_reading(
        &self,
        form: &ReadingForm<'_, '_, R::State, T::Value>,
        seen: &Seen<T::Value>,
        dice: &mut Dice,
        counts: &mut Counts,
    ) -> Result<(), Fault> {
        let n = self.round.n;
        self.check_layers(form, seen)?;
        self.ask_refused(form, dice, counts);
        for order in self.orders {
            self.check_holds(form, seen, &order.doors[..n])?;
        }
        for _ in 0..DRAWN {
            let doors = self.draw_list(seen, dice);
            let is_path = self.check_holds(form, seen, &doors[..n])?;
            counts.note_list(&doors[..n], is_path);
        }
        Ok(())
    }
}
