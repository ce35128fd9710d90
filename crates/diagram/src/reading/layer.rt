//! The records of a layer.
ghost use Rattle.std.specs.Prelude.{◌≡◌};
ghost use Rattle.layers.specs.Calls.{layer_answer};
ghost use Rattle.diagram.specs.Reading.{room_in, round_in, width_in, records_in, handed_out};

use super::ReadingForm;
use crate::room::Room;
use layers::node::Node;
use layers::refusal::Refusal;
use seek::layer::layer;

impl<'a, 'n, S: Copy, V: Copy> ReadingForm<'a, 'n, S, V> {
    /// The diagram's round and width.
    pub fn room(&self) -> Room<'a>
        ensures { result ≡ room_in self.now }
    {
        self.room
    }

    /// The records of layer i, 0 to n, as they stand in the lent list: one for each node of the layer, from node 1 on.
    /// It may be kept when the form is gone, for as long as the list is lent to the form.
    pub fn layer(&self, i: usize) -> Result<&'n [Node<S, V>], Refusal>
        ensures { let n = (round_in self.now).n in
            handed_out result ≡ layer_answer n (width_in self.now) i (records_in self.now) }
    {
        let Room { round, width } = self.room;
        if i > round.n {
            return Err(Refusal::NoLayer);
        }
        Ok(layer(self.nodes, round.n, width, i))
    }
}
