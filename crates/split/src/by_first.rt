//! The test by which a node is parted.
ghost use Rattle.std.specs.Prelude.{◌≡◌};
ghost use Rattle.layers.specs.Labels.{arrival_finish};
ghost use Rattle.split.specs.Agreed.{kept_by};

use crate::agreement::agrees;
use crate::dividing::Test;
use crate::source::Source;
use layers::node::Label;
use layers::setting::Setting;
use rules::rule::Rule;

/// The in-arcs that agree with the first stay.
#[derive(Drop)]
pub(crate) struct ByFirst<'a, R, T, S, V> {
    pub(crate) by: &'a Setting<'a, R, T>,
    pub(crate) first: Source<S, V>,
    pub(crate) finish: u64,
    ghost is_of_first: { finish ≡ arrival_finish by.now.round.now first.label first.door },
}

impl<'a, R: Rule, T, V: Copy> Test for ByFirst<'a, R, T, R::State, V> {
    type State = R::State;

    type Value = V;

    ghost keeps = { λ b u j. let s = b.by.now in
        kept_by s.round.now (R.sense s.rule.now) b.first u.down j };

    #[inline]
    fn stays(&self, u: &Label<R::State, V>, j: usize) -> bool {
        agrees(self.by, &self.first, self.finish, &u.down, j)
    }
}
