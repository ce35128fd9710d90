//! How early the work at each door can end, whatever comes first.
ghost use Rattle.std.specs.Prelude.{◌≡◌, ℕ, ◌<◌, ◌≤◌, slice_index};
ghost use Rattle.doors.specs.Orders.{IsDoor};
ghost use Rattle.round.specs.Clock.{drive, finish, latest_finish};
ghost use Rattle.outlook.specs.Earliest.{IsEarliest, IsLeastInto};

use round::table::Round;

/// The minute at which the work at door j ends, for a van that goes on to it from place i, where its work ended in time.
fn end_after(round: &Round, end: u32, i: usize, j: usize) -> u32
    requires { end ≤ latest_finish 0 }
    ensures { result ≡ finish round.now end (drive round.now i j) j }
{
    round.finish(end, round.drive(i, j), j) as u32
}

/// For each door, the minute at which the work there ends if the van goes straight to it from the yard.
fn ends_from_yard(round: &Round) -> [u32; 17]
    ensures doors { (j : ℕ) → IsDoor round.now.n j
        → slice_index result j ≡ finish round.now 0 (drive round.now 0 j) j }
    ensures others { (j : ℕ) → ¬ IsDoor round.now.n j → slice_index result j ≡ 0 }
{
    let mut ends = [0; 17];
    for j in 1..=round.n {
        ends[j] = end_after(round, 0, 0, j);
    }
    ends
}

/// The least of what stands for door j, and of going on to it from each door whose work ends in time. Going on from j itself
/// never ends earlier.
fn least_into(round: &Round, ends: &[u32; 17], j: usize) -> u32
    requires { j < 17 }
    ensures { IsLeastInto round.now ends.now j result }
{
    let mut least = ends[j];
    for i in 1..=round.n {
        if ends[i] <= u32::from(round.door(i).closes) {
            least = least.min(end_after(round, ends[i], i, j));
        }
    }
    least
}

/// The table of finishes after one more pass, in which each door takes the least as `least_into` finds it.
fn improved(round: &Round, ends: &[u32; 17]) -> [u32; 17]
    ensures doors { (j : ℕ) → IsDoor round.now.n j
        → IsLeastInto round.now ends.now j (slice_index result j) }
    ensures others { (j : ℕ) → ¬ IsDoor round.now.n j → slice_index result j ≡ 0 }
{
    let mut least = [0; 17];
    for j in 1..=round.n {
        least[j] = least_into(round, ends, j);
    }
    least
}

/// For each door, by number, the least minute at which the work there can end: over all ways to come to it from the yard on
/// which no door comes twice and none that comes first finishes after it closes. Pairs, load and keepers have no part in it.
/// Where there is no door stands 0.
pub fn earliest_finishes(round: &Round) -> [u32; 17]
    ensures doors { (j : ℕ) → IsDoor round.now.n j
        → IsEarliest round.now j (slice_index result j) }
    ensures others { (j : ℕ) → ¬ IsDoor round.now.n j → slice_index result j ≡ 0 }
{
    let mut ends = ends_from_yard(round);
    // A way to a door has at most n - 1 doors ahead of it. Each pass lets one more come first.
    for _ in 1..round.n {
        ends = improved(round, &ends);
    }
    ends
}
