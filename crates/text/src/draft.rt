//! A round while its text is read: plain tables, which need not be lawful yet.
ghost use Rattle.std.specs.Prelude.{◌≡◌, ◌≤◌};
ghost use Rattle.text.specs.Drafts.{unread, with_head, with_door, with_row, with_pair, with_keeper};

use crate::line::{Head, Keeper, Pair};
use doors::{DoorSet, with};
use round::door::{BLANK, Door};

/// The tables go by number, as those of a round; what no line fills is 0.
#[derive(Drop)]
pub(crate) struct Draft {
    pub(crate) n: u16,
    pub(crate) load: u16,
    pub(crate) cap: u16,
    pub(crate) grid: u16,
    pub(crate) doors: [Door; 17],
    pub(crate) drives: [[u16; 17]; 17],
    pub(crate) ahead: [DoorSet; 17],
    pub(crate) keepers: [u16; 17],
}

impl Draft {
    pub(crate) fn new() -> Draft
        ensures { result ≡ unread }
    {
        Draft {
            n: 0,
            load: 0,
            cap: 0,
            grid: 0,
            doors: [BLANK; 17],
            drives: [[0; 17]; 17],
            ahead: [0; 17],
            keepers: [0; 17],
        }
    }

    pub(crate) fn set_head(&mut self, head: Head)
        ensures { self.new ≡ with_head self.old head }
    {
        self.n = head.n;
        self.load = head.load;
        self.cap = head.cap;
        self.grid = head.grid.unwrap_or(1);
    }

    pub(crate) fn set_door(&mut self, number: u16, door: Door)
        requires { number ≤ 16 }
        ensures { self.new ≡ with_door self.old number door }
    {
        self.doors[number as usize] = door;
    }

    pub(crate) fn set_row(&mut self, from: u16, row: [u16; 17])
        requires { from ≤ 16 }
        ensures { self.new ≡ with_row self.old from row }
    {
        self.drives[from as usize] = row;
    }

    /// The set of the doors ahead of the second gets the first.
    pub(crate) fn add_pair(&mut self, pair: Pair)
        requires first { pair.first ≤ 16 }
        requires then { pair.then ≤ 16 }
        ensures { self.new ≡ with_pair self.old pair }
    {
        let ahead = &mut self.ahead[pair.then as usize];
        *ahead = with(*ahead, pair.first as usize);
    }

    pub(crate) fn set_keeper(&mut self, keeper: Keeper)
        requires { keeper.door ≤ 16 }
        ensures { self.new ≡ with_keeper self.old keeper }
    {
        self.keepers[keeper.door as usize] = keeper.number;
    }
}
