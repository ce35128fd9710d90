//! The van on its way.
ghost use Rattle.std.specs.Prelude.{◌≡◌, ℕ, suc, ◌<◌, ◌≤◌};
ghost use Rattle.round.specs.Clock.{latest_finish};
ghost use Rattle.orders.specs.Times.{yard, next_van};

use round::table::Round;

/// The place where the van stands, and the minute at which its last work ended.
#[derive(Clone, Copy, Debug, PartialEq, Eq)]
pub struct Van {
    pub last: usize,
    pub finish: u32,
}

impl Van {
    /// At the yard, at minute 0.
    pub(crate) fn at_yard() -> Van
        ensures { result ≡ yard }
    {
        Van { last: 0, finish: 0 }
    }

    /// After the work at door j.
    pub(crate) fn goes(self, round: &Round, j: usize) -> Van
        requires { self.finish ≤ latest_finish 15 }
        ensures { result ≡ next_van round.now self j }
    {
        let leg = round.drive(self.last, j);
        let finish = round.finish(self.finish, leg, j);
        Van {
            last: j,
            finish: finish as u32,
        }
    }
}
