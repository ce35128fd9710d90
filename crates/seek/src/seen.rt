//! What is seen from a node, of two doors i and j.
ghost use Rattle.std.specs.Prelude.{◌≡◌};
ghost use Rattle.seek.specs.Rows.{either, through};

/// A path to the end; one with the door i; one with the door j and the door i after it.
#[derive(Clone, Copy, Debug, PartialEq, Eq)]
pub(crate) struct Seen {
    pub(crate) ends: bool,
    pub(crate) one: bool,
    pub(crate) both: bool,
}

/// Nothing.
pub(crate) const NONE: Seen = Seen {
    ends: false,
    one: false,
    both: false,
};

/// Over an arc by `door`, to a node from which `below` is seen.
pub(crate) fn through(i: usize, j: usize, door: usize, below: Seen) -> Seen
    ensures { result ≡ through i j door below }
{
    Seen {
        ends: below.ends,
        one: below.one || (i == door && below.ends),
        both: below.both || (j == door && below.one),
    }
}

/// One way or the other.
pub(crate) fn either(a: Seen, b: Seen) -> Seen
    ensures { result ≡ either a b }
{
    Seen {
        ends: a.ends || b.ends,
        one: a.one || b.one,
        both: a.both || b.both,
    }
}
