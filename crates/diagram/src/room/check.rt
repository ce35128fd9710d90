//! What is checked before a diagram is opened.
ghost use Rattle.std.specs.Prelude.{◌≡◌, ◌+◌, ◌*◌, ◌≤◌, Ok, Err, IfOk, IfErr};
ghost use Rattle.layers.specs.Calls.{open_answer};

use super::Room;
use layers::refusal::Refusal;
use round::table::Round;

impl<'a> Room<'a> {
    /// Whether a list of `len` records has room for a diagram of the round's doors and this width.
    pub fn check(round: &'a Round, width: usize, len: usize) -> Result<Room<'a>, Refusal>
        ensures refused { IfErr result (λ e. open_answer round.now.n width len ≡ Err e) }
        ensures opened { IfOk result (λ m. open_answer round.now.n width len ≡ Ok tt) }
        ensures round { IfOk result (λ m. m.round ≡ round.entry) }
        ensures width { IfOk result (λ m. m.width ≡ width) }
        ensures fits { IfOk result (λ m. round.now.n * width + 1 ≤ len) }
    {
        if width < 1 || width > 128 {
            return Err(Refusal::Width);
        }
        if len < round.n * width + 1 {
            return Err(Refusal::Short);
        }
        Ok(Room { round, width })
    }
}
