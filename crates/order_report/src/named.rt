//! Orders that are named by words, one for each door.
ghost use Rattle.std.specs.Prelude.{◌↔◌, ℕ, List, IfOk, IfErr, IsOk, MatchOption, MatchResult, All};
ghost use Rattle.doors.specs.Orders.{IsDoor, IsPartOrder};
ghost use Rattle.allowed.specs.Orders.{IsFullOrder};
ghost use Rattle.order_report.specs.Named.{IsDoorText, IsNoDoorText, NameDoors, NameOrder};
ghost use Rattle.order_report.specs.Faults.{IsFirstStray, IsFirstRepeat, IsLeastMissing, IsFirstFault};

use round::table::Round;
use std::alloc::{AllocError, Global};

/// Why words name no order of all of a round's doors. A word that is no door is looked for ahead of a door that comes twice,
/// and that ahead of a door that is missing.
#[derive(Clone, Copy, Debug, PartialEq, Eq)]
pub enum OrderFault<'a> {
    /// the first word that is none of the doors 1 to n
    NoDoor { word: &'a str, n: usize },
    /// the first door that repeats an earlier one
    Twice(usize),
    /// the least door that is missing
    Missing(usize),
}

/// The door that a text names: a number from 1 to 16, in digits, with no leading zero.
#[tactic(auto, using(crate::proofs::DoorTexts::digits_of_door))]
fn door_number(text: &str) -> Option<usize>
    ensures { MatchOption result (IsNoDoorText 16 text.now) (IsDoorText 16 text.now) }
{
    match text.as_bytes() {
        [d @ b'1'..=b'9'] => Some(usize::from(*d - b'0')),
        [b'1', d @ b'0'..=b'6'] => Some(10 + usize::from(*d - b'0')),
        _ => None,
    }
}

/// The door of the round that a word names.
fn door_named(round: &Round, word: &str) -> Option<usize>
    ensures { MatchOption result
        (IsNoDoorText round.now.n word.now)
        (IsDoorText round.now.n word.now) }
{
    let door = door_number(word)?;
    if round.has_door(door) {
        Some(door)
    } else {
        None
    }
}

/// The doors of the round that words name, one each, or else the first word that names none.
fn doors_named<'a>(
    round: &Round,
    words: &[&'a str],
    alloc: Global,
) -> Result<Result<Vec<usize>, &'a str>, AllocError>
    ensures { IfOk result (λ named. MatchResult named
        (λ doors. NameDoors round.now.n words.now doors.items)
        (IsFirstStray round.now.n words.now)) }
{
    let mut doors = Vec::new(alloc);
    for word in words {
        match door_named(round, word) {
            Some(door) => doors.push(door)?,
            None => return Ok(Err(*word)),
        }
    }
    Ok(Ok(doors))
}

/// The first door that repeats an earlier one.
fn repeated(round: &Round, doors: &[usize]) -> Option<usize>
    requires { All (IsDoor round.now.n) doors.now }
    ensures { MatchOption result
        (IsPartOrder round.now.n doors.now)
        (IsFirstRepeat round.now.n doors.now) }
{
    for (i, door) in doors.iter().enumerate() {
        if doors[..i].contains(door) {
            return Some(*door);
        }
    }
    None
}

/// The least door of the round that is missing.
fn missing(round: &Round, doors: &[usize]) -> Option<usize>
    requires { IsPartOrder round.now.n doors.now }
    ensures { MatchOption result
        (IsFullOrder round.now doors.now)
        (IsLeastMissing round.now.n doors.now) }
{
    for door in 1..=round.n {
        if !doors.contains(&door) {
            return Some(door);
        }
    }
    None
}

/// The order of all the round's doors that words name, or else the first fault of the words.
pub fn order_named<'a>(
    round: &Round,
    words: &[&'a str],
    alloc: Global,
) -> Result<Result<Vec<usize>, OrderFault<'a>>, AllocError>
    ensures order { IfOk result (λ named. IfOk named (λ doors.
        NameOrder round.now words.now doors.items)) }
    ensures fault { IfOk result (λ named. IfErr named (IsFirstFault round.now.n words.now)) }
    ensures exact { IfOk result (λ named. IsOk named
        ↔ ((w : List ℕ) × NameOrder round.now words.now w)) }
{
    let doors = match doors_named(round, words, alloc)? {
        Ok(doors) => doors,
        Err(word) => return Ok(Err(OrderFault::NoDoor { word, n: round.n })),
    };
    if let Some(door) = repeated(round, doors.as_slice()) {
        return Ok(Err(OrderFault::Twice(door)));
    }
    match missing(round, doors.as_slice()) {
        Some(door) => Ok(Err(OrderFault::Missing(door))),
        None => Ok(Ok(doors)),
    }
}
