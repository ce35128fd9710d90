//! Cuts bytes at a separator.
ghost use Rattle.std.specs.Prelude.{◌≡◌, ◌+◌, ◌∷◌, [], length, IfSome, MatchOption};
ghost use Rattle.text.specs.Pieces.{pieces};

/// The bytes up to the first separator, and those after it, if there is one.
pub(crate) fn cut_at<'a>(bytes: &'a [u8], sep: u8) -> Option<(&'a [u8], &'a [u8])>
    ensures parts { MatchOption result (pieces sep bytes.now ≡ bytes.now ∷ [])
        (λ cut. pieces sep bytes.now ≡ cut.0.now ∷ pieces sep cut.1.now) }
    ensures lengths { IfSome result
        (λ cut. length cut.0.now + 1 + length cut.1.now ≡ length bytes.now) }
{
    match bytes.iter().position(|b| *b == sep) {
        Some(n) => Some((&bytes[..n], &bytes[n + 1..])),
        None => None,
    }
}
