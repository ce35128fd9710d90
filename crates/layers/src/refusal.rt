//! Why a call on a diagram is refused.
ghost use Rattle.std.specs.Prelude.{◌≡◌};
ghost use Rattle.layers.specs.Refusals.{number_of};

use std::fmt;

/// Why a call on a diagram is refused.
#[derive(Clone, Copy, Debug, PartialEq)]
pub enum Refusal {
    /// the width is not 1 to 128
    Width,
    /// the lent list has too few records
    Short,
    /// the layer is not 1 to n - 1, or, where it is read, not 0 to n
    NoLayer,
    /// the layer has no such node
    NoNode,
    /// a door is not 1 to n
    NoDoor,
    /// all in-arcs of the node agree
    OneGroup,
    /// the layer has as many nodes as the width allows
    LayerFull,
    /// the same node twice
    SameNode,
    /// by some door the two nodes have arcs to different nodes
    Clash,
    /// the same door twice
    SameDoor,
    /// the list of doors is not as long as the round has doors
    WrongLength,
}

impl Refusal {
    /// The refusal's number.
    pub fn number(self) -> u8
        ensures { result ≡ number_of self }
    {
        match self {
            Refusal::Width => 10,
            Refusal::Short => 11,
            Refusal::NoLayer => 20,
            Refusal::NoNode => 21,
            Refusal::NoDoor => 22,
            Refusal::OneGroup => 23,
            Refusal::LayerFull => 24,
            Refusal::SameNode => 25,
            Refusal::Clash => 26,
            Refusal::SameDoor => 27,
            Refusal::WrongLength => 28,
        }
    }
}

/// As the programs print it: no line and no field of a text is at fault.
impl fmt::Display for Refusal {
    ghost use Rattle.std.specs.Prelude.{Some};
    ghost use Rattle.layers.specs.Refusals.{text_of};

    ghost output = { λ refusal. Some (text_of refusal) };

    fn fmt<W: fmt::Write>(&self, f: &mut fmt::Formatter<W>) -> fmt::Result {
        let number = self.number();
        write!(f, "refused\t{number}\t0\t0")
    }
}
