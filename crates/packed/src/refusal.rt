//! Why a sheet is refused.
ghost use Rattle.std.specs.Prelude.{◌≡◌, ◌-◌, negsuc};
ghost use Rattle.packed.specs.Refusals.{number_of};
ghost use Rattle.packed.specs.Sheets.{code};

use layers::refusal::Refusal as DiagramRefusal;
use text::refusal::Refusal as TextRefusal;

/// Why a sheet is refused, in the order in which it is looked at.
#[derive(Clone, Copy, Debug, PartialEq)]
pub enum Refusal {
    /// the text is no round's, or too long
    Text(TextRefusal),
    /// the diagram is not opened: the width is not 1 to 128
    Diagram(DiagramRefusal),
    /// the calls are no calls: not 16 bytes each, or of an unknown kind
    Calls,
    /// there is no room for the sheet
    Short,
}

impl Refusal {
    /// The refusal's number. From 100 on the numbers are this crate's own: no call on a diagram has them.
    pub fn number(self) -> u8
        ensures { result ≡ number_of self }
    {
        match self {
            Refusal::Text(refusal) => refusal.number(),
            Refusal::Diagram(refusal) => refusal.number(),
            Refusal::Calls => 100,
            Refusal::Short => 101,
        }
    }

    /// The refusal as C is told of it: its number, as one below 0.
    pub fn code(self) -> i64
        ensures { result ≡ negsuc (number_of self - 1) }
    {
        -i64::from(self.number())
    }
}

/// What C is told of an answer: the answer, or the refusal's code.
pub fn code_of(answer: Result<u32, Refusal>) -> i64
    ensures { result ≡ code answer }
{
    match answer {
        Ok(word) => i64::from(word),
        Err(refusal) => refusal.code(),
    }
}
