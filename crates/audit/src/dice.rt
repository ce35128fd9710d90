//! Numbers that look drawn at random, and are the same in each run.
ghost use Rattle.std.specs.Prelude.{◌<◌};

#[derive(Drop)]
pub(crate) struct Dice {
    seed: u64,
}

impl Dice {
    pub(crate) fn of(seed: u64) -> Dice {
        Dice { seed }
    }

    /// A number below `below`; 0 if that is 0.
    pub(crate) fn roll(&mut self, below: usize) -> usize
        ensures { 0 < below → result < below }
    {
        let turned = self.seed.wrapping_mul(6_364_136_223_846_793_005);
        self.seed = turned.wrapping_add(1_442_695_040_888_963_407);
        if below == 0 {
            return 0;
        }
        (self.seed >> 33) as usize % below
    }
}
