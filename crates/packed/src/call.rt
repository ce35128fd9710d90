//! A call on a diagram, as it stands in 16 bytes: four words, the call's kind and what it takes.
ghost use Rattle.std.specs.Prelude.{◌≡◌, ◌+◌, ◌≤◌, length, is_some};
ghost use Rattle.packed.specs.Requests.{request_at, requests_of};

use crate::words::word_at;
use crate::work::Cost;
use layers::call::Call;

/// How many bytes a call takes.
pub(crate) const CALL: usize = 16;

/// The call whose first byte stands at `at`; none if there is no call of that kind.
pub(crate) fn call_at(bytes: &[u8], at: usize) -> Option<Call<Cost>>
    requires { at + 16 ≤ length bytes.now }
    ensures { result ≡ request_at bytes.now at }
{
    let x = word_at(bytes, at + 4);
    let y = word_at(bytes, at + 8);
    let z = word_at(bytes, at + 12);
    match word_at(bytes, at) {
        1 => Some(Call::Sweep),
        2 => Some(Call::Part {
            layer: x as usize,
            node: y as usize,
        }),
        3 => Some(Call::Join {
            layer: x as usize,
            first: y as usize,
            second: z as usize,
        }),
        4 => Some(Call::Cut { ceiling: (x, y) }),
        5 => Some(Call::Refine),
        6 => Some(Call::Backsweep),
        _ => None,
    }
}

/// Whether the bytes are calls, one after the other.
pub(crate) fn readable(bytes: &[u8]) -> bool
    ensures { result ≡ is_some (requests_of bytes.now) }
{
    if bytes.len() % CALL != 0 {
        return false;
    }
    for k in 0..bytes.len() / CALL {
        if call_at(bytes, k * CALL).is_none() {
            return false;
        }
    }
    true
}
