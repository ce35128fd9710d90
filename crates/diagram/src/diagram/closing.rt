//! From a diagram to its reading form.
ghost use Rattle.std.specs.Prelude.{◌≡◌};
ghost use Rattle.diagram.specs.Reading.{room_in, records_in};
ghost use Rattle.diagram.specs.Words.{room_of, records_of};

use super::Diagram;
use crate::reading::ReadingForm;

impl<'a, 'n, S: Copy, V: Copy> Diagram<'a, 'n, S, V> {
    /// The reading form of the diagram, which cannot be altered while the form stands, or a layer that it has handed out.
    pub fn reading_form(&self) -> ReadingForm<'a, '_, S, V>
        ensures room { room_in result ≡ room_of self.now }
        ensures records { records_in result ≡ records_of self.now }
    {
        ReadingForm {
            room: self.room,
            nodes: &*self.nodes,
        }
    }

    /// Closes the diagram for good: what is left is its reading form, with the list for as long as it is lent.
    pub fn close(self) -> ReadingForm<'a, 'n, S, V>
        ensures room { room_in result ≡ room_of self.entry }
        ensures records { records_in result ≡ records_of self.entry }
    {
        let Diagram { room, nodes } = self;
        ReadingForm { room, nodes }
    }
}
