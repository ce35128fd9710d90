//! The doors that have an arc, listed.
ghost use Rattle.std.specs.Prelude.{◌≡◌, ℕ, ◌<◌, ◌≤◌, take, slice_index};
ghost use Rattle.labels.specs.Passes.{doors_out};

/// Lists the doors less one that have an arc of a record with the targets `to`, in order, at the first places of `doors`, and
/// answers how many there are.
pub fn list_doors(to: &[u8; 16], doors: &mut [u8; 16]) -> usize
    ensures few { result ≤ 16 }
    ensures in_range { (i : ℕ) → i < result → slice_index doors.new i < 16 }
    ensures listed { take result doors.new ≡ doors_out to.now }
{
    let mut many = 0;
    for k in 0..16 {
        doors[many] = k as u8;
        many += usize::from(to[k] != 0);
    }
    many
}
