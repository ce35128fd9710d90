//! Reading a round's tables, and its clock.
ghost use Rattle.std.specs.Prelude.{◌≡◌, ◌+◌, ◌^◌, ◌<◌, ◌≤◌, max, replicate, slice_index, slice_set};
ghost use Rattle.std.specs.Int.{next_multiple_of};
ghost use Rattle.doors.specs.Orders.{is_door};
ghost use Rattle.round.specs.Tables.{blank, new_door};
ghost use Rattle.round.specs.Clock.{door, drive, start, finish, IsLeastMultiple, ClockLaws};

use crate::door::{BLANK, Door};
use crate::table::Round;

/// No van leaves for its next door after this minute, 9,999 + 15 * 2,057: it has been to 15 doors at most.
pub const LATEST_DEPARTURE: u32 = 40_854;

impl Round {
    /// One door with one minute of work, starts at any minute, and all else 0.
    pub fn fresh() -> Round
        ensures n { result.n ≡ 1 }
        ensures load { result.load ≡ 0 }
        ensures cap { result.cap ≡ 0 }
        ensures grid { result.grid ≡ 1 }
        ensures doors { result.doors ≡ slice_set (replicate 17 blank) 1 new_door }
        ensures drives { result.drives ≡ replicate 17 (replicate 17 0) }
        ensures ahead { result.ahead ≡ replicate 17 0 }
        ensures keepers { result.keepers ≡ replicate 17 0 }
    {
        let mut doors = [BLANK; 17];
        doors[1] = Door {
            opens: 0,
            closes: 0,
            due: 0,
            work: 1,
            change: 0,
        };
        Round {
            n: 1,
            load: 0,
            cap: 0,
            grid: 1,
            doors,
            drives: [[0; 17]; 17],
            ahead: [0; 17],
            keepers: [0; 17],
        }
    }

    /// Whether j is one of the doors 1 to n.
    pub fn has_door(&self, j: usize) -> bool
        ensures { result ≡ is_door self.now.n j }
    {
        (1..=self.n).contains(&j)
    }

    /// The record of door j, blank where there is none.
    pub fn door(&self, j: usize) -> Door
        ensures { result ≡ door self.now j }
    {
        self.doors.get(j).copied().unwrap_or(BLANK)
    }

    /// The drive minutes from i to door j, 0 where there are none.
    pub fn drive(&self, i: usize, j: usize) -> u32
        ensures value { result ≡ drive self.now i j }
        ensures bound { result ≤ 999 }
    {
        let minutes = self.drives.get(i).and_then(|row| row.get(j));
        minutes.map_or(0, |minutes| u32::from(*minutes))
    }

    /// The least multiple of the grid that is not below the minute. Where every minute is one, nothing is divided.
    fn next_start(&self, minute: u64) -> u64
        requires { minute < 2 ^ 33 }
        ensures { result ≡ next_multiple_of minute self.now.grid }
    {
        match u64::from(self.grid) {
            1 => minute,
            grid => minute.next_multiple_of(grid),
        }
    }

    /// The minute at which the work at door j ends, for a van that left its last place at minute `from` and drove `leg` minutes:
    /// work starts at the least multiple of the grid that is not below the later of the door's opening and the arrival.
    #[tactic(auto, unfolding(crate::specs::Clock::finish))]
    pub fn finish(&self, from: u32, leg: u32, j: usize) -> u64
        ensures value { result ≡ finish self.now from leg j }
        ensures start { IsLeastMultiple self.now.grid (max (door self.now j).opens (from + leg))
            (start self.now from leg j) }
        ensures laws { ClockLaws self.now }
    {
        let door = self.door(j);
        let arrives = u64::from(from) + u64::from(leg);
        self.next_start(arrives.max(u64::from(door.opens))) + u64::from(door.work)
    }
}
