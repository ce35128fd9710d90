//! What a line says, by its fields.
ghost use Rattle.std.specs.Prelude.{◌≡◌, ◌<◌, ◌≤◌, replicate, IfOk};
ghost use Rattle.text.specs.Lines.{fields_of, number_at, change_at, dash_at, counted, in_turn, door_of};
ghost use Rattle.text.specs.Lines.{door_due, grid_of, head_of, pair_of, keeper_of, leg_in, row_from, row_due};

use crate::fields::Line;
use crate::number::{change, within};
use crate::refusal::Refusal;
use crate::token::Token;
use round::door::Door;

/// Refuses a line that has not that many fields.
fn expect_fields(line: &Line<'_>, count: usize) -> Result<(), Refusal>
    ensures { result ≡ counted count line.now.number (fields_of line.now) (Ok tt) }
{
    if line.count() == count {
        Ok(())
    } else {
        Err(Refusal::FieldCount { line: line.number })
    }
}

/// The number in that field, from low to high.
fn number_at(line: &Line<'_>, field: usize, low: u16, high: u16) -> Result<u16, Refusal>
    requires some { 1 ≤ field }
    requires most { field ≤ 18 }
    requires small { high < 10000 }
    ensures value { result ≡ number_at line.now.number (fields_of line.now) field low high }
    ensures bound { IfOk result (λ v. (low ≤ v) × (v ≤ high)) }
{
    within(line.token(field), low, high)
}

/// The change in that field, from -99 to 99.
fn change_at(line: &Line<'_>, field: usize) -> Result<i8, Refusal>
    requires some { 1 ≤ field }
    requires most { field ≤ 18 }
    ensures { result ≡ change_at line.now.number (fields_of line.now) field }
{
    change(line.token(field))
}

/// Refuses a line whose number, from low to high, is not the one that is due.
fn expect_turn(line: &Line<'_>, low: u16, high: u16, due: u16) -> Result<(), Refusal>
    requires { high < 10000 }
    ensures { result ≡ in_turn low high due line.now.number (fields_of line.now) }
{
    if number_at(line, 2, low, high)? == due {
        Ok(())
    } else {
        Err(Refusal::OutOfTurn {
            line: line.number,
            field: 2,
        })
    }
}

/// What a door line says of its door.
fn door_of(line: &Line<'_>) -> Result<Door, Refusal>
    ensures { result ≡ door_of line.now.number (fields_of line.now) }
{
    let opens = number_at(line, 3, 0, 9_999)?;
    let closes = number_at(line, 4, 0, 9_999)?;
    let due = number_at(line, 5, 0, 9_999)?;
    let work = number_at(line, 6, 1, 999)?;
    let change = change_at(line, 7)?;
    Ok(Door {
        opens,
        closes,
        due,
        work,
        change,
    })
}

/// The door of a door line, where the door `due` of n is the next.
pub(crate) fn door_due(line: &Line<'_>, n: u16, due: u16) -> Result<Door, Refusal>
    requires { n ≤ 16 }
    ensures { result ≡ door_due n due line.now.number (fields_of line.now) }
{
    expect_fields(line, 7)?;
    expect_turn(line, 1, n, due)?;
    door_of(line)
}

/// What the round line says: how many doors there are, the start load, the cap, and the grid where it has one.
#[derive(Clone, Copy)]
pub(crate) struct Head {
    pub(crate) n: u16,
    pub(crate) load: u16,
    pub(crate) cap: u16,
    pub(crate) grid: Option<u16>,
}

/// The grid in the last field of a round line that has five.
fn grid_of(line: &Line<'_>) -> Result<Option<u16>, Refusal>
    ensures { result ≡ grid_of line.now.number (fields_of line.now) }
{
    if line.count() == 5 {
        Ok(Some(number_at(line, 5, 1, 60)?))
    } else {
        Ok(None)
    }
}

/// The round line.
pub(crate) fn head_of(line: &Line<'_>) -> Result<Head, Refusal>
    ensures value { result ≡ head_of line.now.number (fields_of line.now) }
    ensures bound { IfOk result (λ h. (1 ≤ h.n) × (h.n ≤ 16)) }
{
    expect_fields(line, if line.count() == 5 { 5 } else { 4 })?;
    let n = number_at(line, 2, 1, 16)?;
    let load = number_at(line, 3, 0, 999)?;
    let cap = number_at(line, 4, load, 999)?;
    let grid = grid_of(line)?;
    Ok(Head { n, load, cap, grid })
}

/// Two doors, of which `first` has to come ahead of `then`.
#[derive(Clone, Copy)]
pub(crate) struct Pair {
    pub(crate) first: u16,
    pub(crate) then: u16,
}

/// The line of a pair of the n doors.
pub(crate) fn pair_of(line: &Line<'_>, n: u16) -> Result<Pair, Refusal>
    requires { n ≤ 16 }
    ensures value { result ≡ pair_of n line.now.number (fields_of line.now) }
    ensures bound { IfOk result (λ p. (p.first ≤ n) × (p.then ≤ n)) }
{
    expect_fields(line, 3)?;
    let first = number_at(line, 2, 1, n)?;
    let then = number_at(line, 3, 1, n)?;
    if first == then {
        return Err(Refusal::OutOfTurn {
            line: line.number,
            field: 3,
        });
    }
    Ok(Pair { first, then })
}

/// A door and the number of its keeper.
#[derive(Clone, Copy)]
pub(crate) struct Keeper {
    pub(crate) door: u16,
    pub(crate) number: u16,
}

/// The line of a keeper, for one of the n doors that has none in the table.
pub(crate) fn keeper_of(line: &Line<'_>, n: u16, keepers: &[u16; 17]) -> Result<Keeper, Refusal>
    requires { n ≤ 16 }
    ensures value { result ≡ keeper_of n keepers.now line.now.number (fields_of line.now) }
    ensures bound { IfOk result (λ k. k.door ≤ n) }
{
    expect_fields(line, 3)?;
    let door = number_at(line, 2, 1, n)?;
    if keepers[door as usize] != 0 {
        return Err(Refusal::SecondKeeper {
            line: line.number,
            field: 2,
        });
    }
    let number = number_at(line, 3, 1, 99)?;
    Ok(Keeper { door, number })
}

/// A "-" in that field, for a drive of no minutes.
fn dash_at(line: &Line<'_>, field: usize) -> Result<u16, Refusal>
    requires some { 1 ≤ field }
    requires most { field ≤ 18 }
    ensures { result ≡ dash_at line.now.number (fields_of line.now) field }
{
    match line.token(field) {
        Token::Dash { .. } => Ok(0),
        _ => Err(Refusal::NotNumber {
            line: line.number,
            field,
        }),
    }
}

/// The drive from a place to a door: "-" where they are the same.
fn leg_at(line: &Line<'_>, from: u16, to: u16) -> Result<u16, Refusal>
    requires { to ≤ 16 }
    ensures { result ≡ leg_in from to line.now.number (fields_of line.now) }
{
    let field = to as usize + 2;
    if from == to {
        dash_at(line, field)
    } else {
        number_at(line, field, 0, 999)
    }
}

/// The drives from a place to each of n doors.
#[tactic(auto, using(crate::proofs::Texts::row_step))]
fn row_of(line: &Line<'_>, n: u16, from: u16) -> Result<[u16; 17], Refusal>
    requires { n ≤ 16 }
    ensures { result ≡ row_from n from 1 line.now.number (fields_of line.now) (replicate 17 0) }
{
    let mut row = [0; 17];
    for to in 1..=n {
        row[to as usize] = leg_at(line, from, to)?;
    }
    Ok(row)
}

/// The drives of a drive line, where the place `due` is the next.
pub(crate) fn row_due(line: &Line<'_>, n: u16, due: u16) -> Result<[u16; 17], Refusal>
    requires { n ≤ 16 }
    ensures { result ≡ row_due n due line.now.number (fields_of line.now) }
{
    expect_fields(line, n as usize + 2)?;
    expect_turn(line, 0, n, due)?;
    row_of(line, n, due)
}
