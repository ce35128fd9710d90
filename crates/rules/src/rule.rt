//! A side rule: which part orders keep it, and states that stand for part orders.
ghost use Rattle.std.specs.Prelude.{◌≡◌, ℕ, true, List};
ghost use Rattle.rules.specs.Rules.{RuleSense, RuleLaws};

/// The functions only answer: they refuse nothing and alter nothing, and answer as `sense` says.
pub trait Rule {
    type State: Copy;

    // the rule is one for rounds of that many doors
    ghost serves: { Self → ℕ → Type 0 };

    // what start, step, cover, bars and same answer
    ghost sense: { Self → RuleSense Self.State };

    // which part orders keep the rule
    ghost keeps: { Self → List ℕ → Type 0 };

    // which part orders a state stands for
    ghost stands: { Self → Self.State → List ℕ → Type 0 };

    fn start(&self) -> Self::State
        ensures { result ≡ (sense self.now).start };

    /// The state after one more door.
    fn step(&self, s: Self::State, j: usize) -> Self::State
        ensures { result ≡ (sense self.now).step s j };

    /// A state that stands for all that either stands for.
    fn cover(&self, s: Self::State, t: Self::State) -> Self::State
        ensures { result ≡ (sense self.now).cover s t };

    /// Whether door j would break the rule after each part order that s stands for.
    fn bars(&self, s: Self::State, j: usize) -> bool
        ensures { result ≡ (sense self.now).bars s j };

    fn same(&self, s: Self::State, t: Self::State) -> bool
        ensures { result ≡ (sense self.now).same s t };

    // what each implementation shows
    ghost lawful: { (r : Self) (n : ℕ) → serves r n → RuleLaws n (sense r) (keeps r) (stands r) };

    // a state is the same as itself, whatever rounds the rule serves: so a node that is parted keeps its first in-arc
    ghost reflexive: { (r : Self) (s : Self.State) → (sense r).same s s ≡ true };
}
