//! Which doors stand ahead of which.
use doors::{DoorSet, with};

/// For each door, by number, the doors that it stands ahead of.
#[derive(Clone, Copy, PartialEq)]
pub(crate) struct Ahead {
    behind: [DoorSet; 17],
}

impl Ahead {
    pub(crate) fn none() -> Ahead {
        Ahead { behind: [0; 17] }
    }

    /// Each of n doors ahead of each other one.
    pub(crate) fn all(n: usize) -> Ahead {
        let mut doors = 0;
        for j in 1..=n {
            doors = with(doors, j);
        }
        let mut ahead = Ahead::none();
        for i in 1..17 {
            if i <= n {
                ahead.behind[i] = doors & !with(0, i);
            }
        }
        ahead
    }

    /// As the doors of the list stand.
    pub(crate) fn of(doors: &[usize]) -> Ahead {
        let mut ahead = Ahead::none();
        let mut later = 0;
        for j in doors.iter().rev() {
            if let Some(behind) = ahead.behind.get_mut(*j) {
                *behind = later;
            }
            later = with(later, *j);
        }
        ahead
    }

    /// Door i ahead of door j too.
    pub(crate) fn add(&mut self, i: usize, j: usize) {
        if let Some(behind) = self.behind.get_mut(i) {
            *behind = with(*behind, j);
        }
    }

    /// What both say.
    pub(crate) fn both(mut self, other: Ahead) -> Ahead {
        for i in 0..17 {
            self.behind[i] &= other.behind[i];
        }
        self
    }
}
