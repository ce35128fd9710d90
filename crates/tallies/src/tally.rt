//! A tally: what a part order costs, as a value that never falls from door to door.
ghost use Rattle.std.specs.Prelude.{◌≡◌, ℕ};
ghost use Rattle.tallies.specs.Tallies.{TallySense, TallyLaws};

/// The functions only answer: they refuse nothing and alter nothing, and answer as `sense` says.
pub trait Tally {
    type Value: Copy;

    // the tally is one for rounds of that many doors
    ghost serves: { Self → ℕ → Type 0 };

    // what start, step, not_above and lesser answer
    ghost sense: { Self → TallySense Self.Value };

    // the values allowed after k doors
    ghost allows: { Self → ℕ → Self.Value → Type 0 };

    fn start(&self) -> Self::Value
        ensures { result ≡ (sense self.now).start };

    /// The value after one more door, reached by `leg` drive minutes, whose work ends at minute `finish`.
    fn step(&self, v: Self::Value, j: usize, leg: u32, finish: u32) -> Self::Value
        ensures { result ≡ (sense self.now).step v j leg finish };

    fn not_above(&self, a: Self::Value, b: Self::Value) -> bool
        ensures { result ≡ (sense self.now).not_above a b };

    fn lesser(&self, a: Self::Value, b: Self::Value) -> Self::Value
        ensures { result ≡ (sense self.now).lesser a b };

    // what each implementation shows
    ghost lawful: { (t : Self) (n : ℕ) → serves t n → TallyLaws n (sense t) (allows t) };
}
