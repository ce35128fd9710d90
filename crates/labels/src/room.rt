//! Whether a lent list has room for a diagram.
ghost use Rattle.std.specs.Prelude.{◌≡◌};
ghost use Rattle.labels.specs.Passes.{fits};

use round::table::Round;

/// Whether the width is 1 to 128, and `len` records are enough for the round's doors at that width.
pub fn has_room(round: &Round, width: usize, len: usize) -> bool
    ensures { result ≡ fits round.now.n width len }
{
    width >= 1 && width <= 128 && len >= round.n * width + 1
}
