//! What is looked at of the arrivals at a node.
ghost use Rattle.std.specs.Prelude.{◌≡◌, ◌<◌, ⊤};

use layers::node::Down;
use std::alloc::AllocError;

/// Where an arrival comes from. The arrival itself is worked out where it is looked at, since its finish may pass u32.
pub(crate) struct Source<S, V> {
    pub(crate) label: Down<S, V>,
    pub(crate) door: usize,
    ghost fits: { door < 17 },
}

/// By hand: no derive copies a type with parameters and a ghost field.
impl<S: Copy, V: Copy> Clone for Source<S, V> {
    ghost is_clone = { λ x y. y ≡ x };

    ghost is_infallible = { λ _. ⊤ };

    fn clone(&self) -> Result<Source<S, V>, AllocError> {
        Ok(*self)
    }
}

impl<S: Copy, V: Copy> Copy for Source<S, V> {}
