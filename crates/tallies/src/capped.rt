//! Sums that stay at the most that a number of a tally may be.
ghost use Rattle.std.specs.Prelude.{◌≡◌, ◌+◌, min};

/// No number of a tally passes this.
const MOST: u32 = 1_000_000;

/// The sum, or the most where it would pass that.
pub(crate) fn capped_sum(a: u32, by: u32) -> u32
    ensures { result ≡ min (a + by) 1000000 }
{
    a.saturating_add(by).min(MOST)
}
