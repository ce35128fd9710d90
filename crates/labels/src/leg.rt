//! The leg of an arc.
ghost use Rattle.std.specs.Prelude.{◌≡◌, ℕ, ◌+◌, ◌<◌, ◌≤◌, ◌==◌, if◌then◌else◌, min, max, unwrap_or, slice_index, MatchOption};
ghost use Rattle.layers.specs.Labels.{nearest, leg};
ghost use Rattle.labels.specs.Passes.{nearest_of, NoneBetween, IsFirstOf};

use doors::DoorSet;
use round::table::Round;

/// The first of the places from `from` to n that is in the set, if there is one.
#[inline]
#[tactic(auto, using(crate::proofs::Legs::none_before, crate::proofs::Legs::member_there))]
fn next_member(set: DoorSet, from: usize, n: usize) -> Option<usize>
    requires start { from < 32 }
    requires end { n < 32 }
    ensures { MatchOption result (NoneBetween set from (n + 1)) (IsFirstOf set from n) }
{
    let i = from + (set >> from).trailing_zeros() as usize;
    if i <= n { Some(i) } else { None }
}

/// The lesser of a drive and the best so far.
fn nearer(best: Option<u32>, d: u32) -> Option<u32>
    ensures { result ≡ nearest best d }
{
    match best {
        None => Some(d),
        Some(e) => Some(e.min(d)),
    }
}

/// The least drive to j from a member of `lasts` other than j, or 0.
#[tactic(auto, using(crate::proofs::Legs::nearest_over), unfolding(layers::specs::Labels::leg))]
pub fn leg_from(round: &Round, lasts: DoorSet, j: usize) -> u32
    ensures { result ≡ leg round.now lasts j }
{
    let mut best: Option<u32> = None;
    let mut from = 0;
    while let Some(i) = next_member(lasts, from, round.n) {
        if i != j {
            best = nearer(best, round.drive(i, j));
        }
        from = i + 1;
    }
    best.unwrap_or(0)
}

/// More than any drive.
const FAR: u16 = 1000;

/// 0 but for `FAR` at place 15.
const LINE: [u16; 32] = [
    0, 0, 0, 0, 0, 0, 0, 0, 0, 0, 0, 0, 0, 0, 0, FAR, 0, 0, 0, 0, 0, 0, 0, 0, 0, 0, 0, 0, 0, 0, 0,
    0,
];

/// The drives from place i, where they are less; there is none from a door to itself.
fn nearer_from(row: &[u16; 17], i: usize, best: &mut [u16; 16])
    requires { i ≤ 16 }
    ensures { (k : ℕ) → k < 16 → slice_index best.new k
        ≡ min (slice_index best.old k) (max (slice_index row.now (k + 1)) (if i == k + 1 then 1000 else 0)) }
{
    for k in 0..16 {
        best[k] = best[k].min(row[k + 1].max(LINE[16 - i + k]));
    }
}

/// The least drive to each door, `FAR` where there is none.
#[tactic(auto, using(crate::proofs::Legs::far_next, crate::proofs::Legs::nearest_over))]
fn least_drives(round: &Round, lasts: DoorSet) -> [u16; 16]
    ensures { (k : ℕ) → k < 16 → slice_index result k
        ≡ unwrap_or (nearest_of round.now lasts (k + 1) (round.now.n + 1)) 1000 }
{
    let mut best = [FAR; 16];
    let mut from = 0;
    while let Some(i) = next_member(lasts, from, round.n) {
        nearer_from(&round.drives[i], i, &mut best);
        from = i + 1;
    }
    best
}

/// The legs from the places `lasts` to all doors at once: at place k that to door k + 1.
#[tactic(auto, using(crate::proofs::Legs::leg_none, crate::proofs::Legs::leg_some))]
pub fn legs(round: &Round, lasts: DoorSet) -> [u16; 16]
    ensures { (k : ℕ) → k < 16 → slice_index result k ≡ leg round.now lasts (k + 1) }
{
    let mut legs = least_drives(round, lasts);
    for k in 0..16 {
        let drive = legs[k];
        legs[k] = if drive == FAR { 0 } else { drive };
    }
    legs
}
