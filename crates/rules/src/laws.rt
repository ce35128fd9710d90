//! Which rounds each rule serves, when it is kept, what it answers, and its laws, with no premise left. The functions do nothing
//! when they run: their contracts are what they are for.
ghost use Rattle.std.specs.Prelude.{◌≡◌, ◌↔◌, ℕ, List};
ghost use Rattle.rules.specs.Boths.{both_sense};
ghost use Rattle.rules.specs.Keepers.{IsSpaced, keepers_sense};
ghost use Rattle.rules.specs.Loads.{IsWithinCap, load_sense};
ghost use Rattle.rules.specs.Pairs.{IsOrdered, pairs_sense};
ghost use Rattle.rules.specs.Rules.{RuleLaws};

use crate::both::Both;
use crate::keepers::Keepers;
use crate::load::Load;
use crate::pairs::Pairs;
use crate::rule::Rule;

/// The pairs of a round serve it, and are kept if the first door of each stands ahead of the second.
pub fn pairs_serve<'a>(rule: &Pairs<'a>)
    ensures serves { ⟦<Pairs<'a> as Rule>⟧.serves rule.now rule.now.round.now.n }
    ensures kept { (w : List ℕ) →
        ⟦<Pairs<'a> as Rule>⟧.keeps rule.now w ↔ IsOrdered rule.now.round.now.ahead w }
    ensures answers { let r = rule.now.round.now in
        ⟦<Pairs<'a> as Rule>⟧.sense rule.now ≡ pairs_sense r.n r.ahead }
    ensures laws { let R = ⟦<Pairs<'a> as Rule>⟧ in
        RuleLaws rule.now.round.now.n (R.sense rule.now) (R.keeps rule.now) (R.stands rule.now) }
{}

/// The load of a round serves it, and is kept if the van holds 0 to cap key boxes after every door.
pub fn load_serves<'a>(rule: &Load<'a>)
    ensures serves { ⟦<Load<'a> as Rule>⟧.serves rule.now rule.now.round.now.n }
    ensures kept { let r = rule.now.round.now in
        (w : List ℕ) → ⟦<Load<'a> as Rule>⟧.keeps rule.now w ↔ IsWithinCap r.load r.cap r.doors w }
    ensures answers { let r = rule.now.round.now in
        ⟦<Load<'a> as Rule>⟧.sense rule.now ≡ load_sense r.n r.load r.cap r.doors }
    ensures laws { let R = ⟦<Load<'a> as Rule>⟧ in
        RuleLaws rule.now.round.now.n (R.sense rule.now) (R.keeps rule.now) (R.stands rule.now) }
{}

/// The keepers of a round serve it, and are kept if the van never goes from a door straight to another of the same keeper.
pub fn keepers_serve<'a>(rule: &Keepers<'a>)
    ensures serves { ⟦<Keepers<'a> as Rule>⟧.serves rule.now rule.now.round.now.n }
    ensures kept { (w : List ℕ) →
        ⟦<Keepers<'a> as Rule>⟧.keeps rule.now w ↔ IsSpaced rule.now.round.now.keepers w }
    ensures answers { let r = rule.now.round.now in
        ⟦<Keepers<'a> as Rule>⟧.sense rule.now ≡ keepers_sense r.n r.keepers }
    ensures laws { let R = ⟦<Keepers<'a> as Rule>⟧ in
        RuleLaws rule.now.round.now.n (R.sense rule.now) (R.keeps rule.now) (R.stands rule.now) }
{}

/// Two rules together serve what both of them serve, and are kept if both are.
pub fn both_serve<A: Rule, B: Rule>(rule: &Both<A, B>)
    ensures serves { (n : ℕ) → A.serves rule.now.first n → B.serves rule.now.second n
        → ⟦<Both<A, B> as Rule>⟧.serves rule.now n }
    ensures kept { (w : List ℕ) → ⟦<Both<A, B> as Rule>⟧.keeps rule.now w
        ↔ (A.keeps rule.now.first w × B.keeps rule.now.second w) }
    ensures answers { ⟦<Both<A, B> as Rule>⟧.sense rule.now
        ≡ both_sense (A.sense rule.now.first) (B.sense rule.now.second) }
    ensures laws { let R = ⟦<Both<A, B> as Rule>⟧ in
        (n : ℕ) → A.serves rule.now.first n → B.serves rule.now.second n
        → RuleLaws n (R.sense rule.now) (R.keeps rule.now) (R.stands rule.now) }
{}
