//! Writes the text of a small round, drawn by dice, and reads it.
use crate::dice::Dice;
use anyhow::anyhow;
use round::table::Round;
use std::alloc::{AllocError, Global};
use text::reading::read;

/// What kind of round it is.
#[derive(Clone, Copy)]
struct Kind {
    n: usize,
    /// how tight the hours of the doors are
    hours: usize,
    /// whether its numbers are large
    large: bool,
    /// how many key boxes change hands at a door
    load: usize,
    /// how it pairs doors
    pairs: usize,
    /// how many keepers it has
    keepers: usize,
}

impl Kind {
    fn scaled(self, minutes: usize) -> usize {
        if self.large {
            minutes.saturating_mul(150)
        } else {
            minutes
        }
    }

    /// The minutes up to which a door's hours reach past its opening and its work.
    fn slack(self, dice: &mut Dice) -> usize {
        match self.hours {
            0 | 1 => 9_999,
            2 => dice.roll(self.n.saturating_mul(3)),
            _ => dice
                .roll(self.n.saturating_mul(5))
                .saturating_add(self.n.saturating_mul(2)),
        }
    }
}

fn add_door(text: &mut String, dice: &mut Dice, kind: Kind, j: usize) -> Result<(), AllocError> {
    let opens = kind.scaled(dice.roll(7));
    let work = kind.scaled(dice.roll(4)).saturating_add(1);
    let least = opens.saturating_add(work);
    let slack = kind.scaled(kind.slack(dice));
    let closes = least.saturating_add(slack).min(9_999);
    let late = kind.scaled(dice.roll(9));
    let due = least.saturating_add(late).min(9_999);
    let boxes = dice.roll(kind.load.saturating_add(1));
    let is_left = boxes > 0 && dice.roll(2) == 0;
    let sign = if is_left { "-" } else { "" };
    write!(
        text,
        "door\t{j}\t{opens}\t{closes}\t{due}\t{work}\t{sign}{boxes}\n"
    )
}

fn add_drive(text: &mut String, dice: &mut Dice, kind: Kind, i: usize) -> Result<(), AllocError> {
    write!(text, "drive\t{i}")?;
    for j in 1..=kind.n {
        if i == j {
            write!(text, "\t-")?;
        } else {
            let minutes = kind.scaled(dice.roll(5));
            write!(text, "\t{minutes}")?;
        }
    }
    write!(text, "\n")
}

/// Two different doors of the round, the lower first unless any order will do.
fn add_pair(text: &mut String, dice: &mut Dice, kind: Kind) -> Result<(), AllocError> {
    let a = dice.roll(kind.n);
    let step = dice.roll(kind.n.saturating_sub(1)).saturating_add(1);
    let b = a.saturating_add(step) % kind.n.max(1);
    let (first, second) = if kind.pairs < 5 {
        (a.min(b), a.max(b))
    } else {
        (a, b)
    };
    let i = first.saturating_add(1);
    let j = second.saturating_add(1);
    write!(text, "first\t{i}\t{j}\n")
}

/// A keeper for each door, or none: there are so few that doors share them.
fn add_keepers(text: &mut String, dice: &mut Dice, kind: Kind) -> Result<(), AllocError> {
    for j in 1..=kind.n {
        let keeper = dice.roll(kind.keepers.saturating_add(1));
        if keeper > 0 {
            write!(text, "keeper\t{j}\t{keeper}\n")?;
        }
    }
    Ok(())
}

/// The grid, if the round line names one: half of them do, mostly one that is coarse enough to matter at the round's minutes.
fn draw_grid(dice: &mut Dice, kind: Kind) -> Option<u16> {
    if dice.roll(2) == 0 {
        return None;
    }
    let grids = if kind.large {
        [1, 2, 7, 15, 15, 15, 30, 45, 60, 60, 60, 60]
    } else {
        [1, 2, 2, 2, 3, 3, 4, 4, 5, 6, 15, 60]
    };
    Some(grids[dice.roll(12)])
}

/// The round of a text.
pub(crate) fn round_of(text: &[u8]) -> anyhow::Result<Round> {
    let mut round = Round::fresh();
    match read(&mut round, text) {
        Ok(()) => Ok(round),
        Err(refusal) => Err(anyhow!("{refusal}")),
    }
}

/// The text of a round of n doors.
pub(crate) fn draw(alloc: Global, dice: &mut Dice, n: usize) -> Result<String, AllocError> {
    let kind = Kind {
        n,
        hours: dice.roll(5),
        large: dice.roll(8) == 0,
        load: dice.roll(3),
        pairs: dice.roll(6),
        keepers: dice.roll(6).saturating_sub(2),
    };
    let load = dice.roll(2).saturating_add(kind.load);
    let cap = load.saturating_add(kind.load).saturating_add(dice.roll(2));
    let mut text = format!(in alloc; "round\t{n}\t{load}\t{cap}")?;
    if let Some(grid) = draw_grid(dice, kind) {
        write!(text, "\t{grid}")?;
    }
    text.push('\n')?;
    for j in 1..=n {
        add_door(&mut text, dice, kind, j)?;
    }
    for i in 0..=n {
        add_drive(&mut text, dice, kind, i)?;
    }
    if n > 1 {
        for _ in 2..kind.pairs {
            add_pair(&mut text, dice, kind)?;
        }
    }
    add_keepers(&mut text, dice, kind)?;
    Ok(text)
}
