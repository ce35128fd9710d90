//! From one order to the next, as in a dictionary.
ghost use Rattle.std.specs.Prelude.{◌≡◌, ℕ, ◌<◌, ◌≤◌, false, true, length, All, MatchOption, slice_index};
ghost use Rattle.std.specs.List.Sorted.{IsPermutation};
ghost use Rattle.lister.specs.Orders.{IsNext, IsLast};

/// The last place whose number is above that one, if there is one.
fn last_above(doors: &[usize], number: usize) -> Option<usize>
    ensures { MatchOption result (All (λ j. j ≤ number) doors.now)
        (λ k. (k < length doors.now) × (number < slice_index doors.now k)
        × ((m : ℕ) → k < m → m < length doors.now → slice_index doors.now m ≤ number)) }
{
    doors.iter().rposition(|j| *j > number)
}

/// The next list of the same numbers in dictionary order, if there is one: else the answer is no,
/// and the list stays.
pub fn next_order(doors: &mut [usize]) -> bool
    ensures same_doors { IsPermutation doors.old doors.new }
    ensures next { result ≡ true → IsNext doors.old doors.new }
    ensures last { result ≡ false → IsLast doors.old }
    ensures unaltered { result ≡ false → doors.new ≡ doors.old }
{
    if doors.is_empty() {
        return false;
    }
    let first = doors[0];
    let rest = &mut doors[1..];
    if next_order(rest) {
        return true;
    }
    let Some(k) = last_above(rest, first) else {
        return false;
    };
    doors.swap(0, k + 1);
    doors[1..].reverse();
    true
}
