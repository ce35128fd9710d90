//! The kinds of lines.
ghost use Rattle.std.specs.Prelude.{◌≡◌, List, ℕ, ◌≤◌, length, slice_index_or};
ghost use Rattle.std.specs.Borrow.{Bor};
ghost use Rattle.text.specs.Kinds.{named};

/// The kind of a line.
#[derive(Clone, Copy, Debug, PartialEq, Eq)]
pub enum Kind {
    Round,
    Door,
    Drive,
    First,
    Keeper,
    /// what names no kind
    Other,
}

/// The kind that a field names.
fn kind_named(name: &[u8]) -> Kind
    ensures { result ≡ named name.now }
{
    match name {
        [b'r', b'o', b'u', b'n', b'd'] => Kind::Round,
        [b'd', b'o', b'o', b'r'] => Kind::Door,
        [b'd', b'r', b'i', b'v', b'e'] => Kind::Drive,
        [b'f', b'i', b'r', b's', b't'] => Kind::First,
        [b'k', b'e', b'e', b'p', b'e', b'r'] => Kind::Keeper,
        _ => Kind::Other,
    }
}

/// The kind that a line's first field names; the rest of the line follows.
pub(crate) fn kind_of(fields: &[&[u8]]) -> Kind
    requires { 1 ≤ length fields.now }
    ensures { (d : Bor (List ℕ)) → result ≡ named (slice_index_or fields.now 0 d).now }
{
    match fields {
        [name, ..] => kind_named(name),
        [] => Kind::Other,
    }
}
