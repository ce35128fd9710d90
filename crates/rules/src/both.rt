//! Two rules together are a rule again.
ghost use Rattle.rules.specs.Boths.{both_sense};
ghost use Rattle.rules.specs.BothLaws.{both_lawful};
ghost use Rattle.std.proofs.lemmas.Bool.{and_from};

use crate::rule::Rule;

/// Two rules together: kept if both are.
#[derive(Clone, Copy, Debug, PartialEq, Eq)]
pub struct Both<A, B> {
    pub first: A,
    pub second: B,
}

impl<A: Rule, B: Rule> Rule for Both<A, B> {
    type State = (A::State, B::State);

    ghost serves = { λ r n. A.Rule.serves r.first n × B.Rule.serves r.second n };

    ghost sense = { λ r. both_sense (A.Rule.sense r.first) (B.Rule.sense r.second) };

    ghost keeps = { λ r w. A.Rule.keeps r.first w × B.Rule.keeps r.second w };

    ghost stands = { λ r s w. A.Rule.stands r.first s.0 w × B.Rule.stands r.second s.1 w };

    ghost lawful = { λ r n h.
        both_lawful (A.Rule.lawful r.first n h.0) (B.Rule.lawful r.second n h.1) };

    ghost reflexive = { λ r s.
        and_from _ _ (A.Rule.reflexive r.first s.0) (B.Rule.reflexive r.second s.1) };

    fn start(&self) -> (A::State, B::State) {
        (self.first.start(), self.second.start())
    }

    fn step(&self, s: (A::State, B::State), j: usize) -> (A::State, B::State) {
        (self.first.step(s.0, j), self.second.step(s.1, j))
    }

    fn cover(&self, s: (A::State, B::State), t: (A::State, B::State)) -> (A::State, B::State) {
        (self.first.cover(s.0, t.0), self.second.cover(s.1, t.1))
    }

    fn bars(&self, s: (A::State, B::State), j: usize) -> bool {
        self.first.bars(s.0, j) || self.second.bars(s.1, j)
    }

    fn same(&self, s: (A::State, B::State), t: (A::State, B::State)) -> bool {
        self.first.same(s.0, t.0) && self.second.same(s.1, t.1)
    }
}
