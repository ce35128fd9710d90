//! Whether some order of all doors keeps the load. Sets of doors are taken by mask, each after those within it: a door can come
//! last of a set if some order of the others keeps pairs and load, the doors ahead of it are among those others, and the load
//! after the doors of the set is 0 to cap. Sets that have the yard in them are taken too, and have no order.
ghost use Rattle.std.specs.Prelude.{◌≡◌, ◌↔◌, ℕ, ◌+◌, ◌^◌, ◌<◌, ◌≤◌, true, false, List, [], ◌∷◌, ◌++◌, length, IfOk, IsTrue, MatchOption};
ghost use Rattle.doors.specs.Orders.{IsDoor, IsPartOrder};
ghost use Rattle.doors.specs.Sets.{has, set_of};
ghost use Rattle.rules.specs.Loads.{load_of};
ghost use Rattle.outlook.specs.LoadOrders.{FitsVan, KeepsLoad, KeepsLoadWithin, CanBeLast, AreKept};

use doors::{DoorSet, contains};
use round::table::Round;
use std::alloc::{AllocError, Global};

/// The set without door j, which it has.
fn without(set: DoorSet, j: usize) -> DoorSet
    requires among { has set j ≡ true }
    requires small { j < 32 }
    ensures sum { result + 2 ^ j ≡ set }
    ensures gone { has result j ≡ false }
{
    set ^ (1 << j)
}

/// The load after any order of just the doors of the set.
fn load_after(round: &Round, set: DoorSet) -> i32
    ensures { (w : List ℕ) → IsPartOrder round.now.n w → set_of w ≡ set
        → result ≡ load_of round.now.load round.now.doors w }
{
    let mut load = i32::from(round.load);
    for (j, door) in round.doors.iter().enumerate() {
        if contains(set, j) {
            load += i32::from(door.change);
        }
    }
    load
}

/// Whether the load after the doors of the set is 0 to cap.
fn fits_load(round: &Round, set: DoorSet) -> bool
    ensures { (w : List ℕ) → IsPartOrder round.now.n w → set_of w ≡ set
        → IsTrue result ↔ FitsVan round.now (load_of round.now.load round.now.doors w) }
{
    (0..=i32::from(round.cap)).contains(&load_after(round, set))
}

/// Whether door j can come last of the doors of the set, after which the load is 0 to cap; `kept` says of each set below
/// whether some order of just its doors keeps pairs and load.
fn can_be_last(round: &Round, ahead: &[DoorSet; 17], kept: &[bool], set: DoorSet, j: usize) -> bool
    requires kept { AreKept round.now ahead.now kept.now }
    requires below { set ≤ length kept.now }
    requires door { IsDoor round.now.n j }
    requires fits { (w : List ℕ) → IsPartOrder round.now.n w → set_of w ≡ set
        → FitsVan round.now (load_of round.now.load round.now.doors w) }
    ensures { IsTrue result ↔ CanBeLast round.now ahead.now set j }
{
    if !contains(set, j) {
        return false;
    }
    let rest = without(set, j);
    kept[rest as usize] && ahead[j] & rest == ahead[j]
}

/// A door that can come last of the doors of the set, if there is one.
fn last_door(round: &Round, ahead: &[DoorSet; 17], kept: &[bool], set: DoorSet) -> Option<usize>
    requires kept { AreKept round.now ahead.now kept.now }
    requires below { set ≤ length kept.now }
    ensures { MatchOption result
        ((j : ℕ) → IsDoor round.now.n j → ¬ CanBeLast round.now ahead.now set j)
        (λ j. CanBeLast round.now ahead.now set j) }
{
    if !fits_load(round, set) {
        return None;
    }
    for j in 1..=round.n {
        if can_be_last(round, ahead, kept, set, j) {
            return Some(j);
        }
    }
    None
}

/// Whether some order of just the doors of the set keeps pairs and load.
fn is_kept(round: &Round, ahead: &[DoorSet; 17], kept: &[bool], set: DoorSet) -> bool
    requires kept { AreKept round.now ahead.now kept.now }
    requires below { set ≤ length kept.now }
    ensures { IsTrue result ↔ ((w : List ℕ) × KeepsLoadWithin round.now ahead.now set w) }
{
    set == 0 || last_door(round, ahead, kept, set).is_some()
}

/// For each set of doors below that one, by its mask, whether some order of just its doors keeps pairs and load.
fn kept_below(
    round: &Round,
    ahead: &[DoorSet; 17],
    end: DoorSet,
    alloc: Global,
) -> Result<Vec<bool>, AllocError>
    ensures { IfOk result (λ v. (length v.items ≡ end) × AreKept round.now ahead.now v.items) }
{
    let mut kept = Vec::new(alloc);
    for set in 0..end {
        kept.push(is_kept(round, ahead, &kept, set))?;
    }
    Ok(kept)
}

/// An order of just the doors of the set that keeps pairs and load, where there is one.
fn order_of(
    round: &Round,
    ahead: &[DoorSet; 17],
    kept: &[bool],
    set: DoorSet,
    alloc: Global,
) -> Result<Vec<usize>, AllocError>
    requires kept { AreKept round.now ahead.now kept.now }
    requires below { set ≤ length kept.now }
    ensures { IfOk result (λ v. (w : List ℕ) → KeepsLoadWithin round.now ahead.now set w
        → KeepsLoadWithin round.now ahead.now set v.items) }
{
    match last_door(round, ahead, kept, set) {
        None => Ok(Vec::new(alloc)),
        Some(j) => {
            let mut order = order_of(round, ahead, kept, without(set, j), alloc)?;
            order.push(j)?;
            Ok(order)
        }
    }
}

/// An order of all doors that keeps the load, and the pairs of the table, which has for each door the set of the doors ahead
/// of it; none if there is no such order. Hours and keepers have no part in it.
pub fn order_keeping_load(
    round: &Round,
    ahead: &[DoorSet; 17],
    alloc: Global,
) -> Result<Option<Vec<usize>>, AllocError>
    ensures { IfOk result (λ found. MatchOption found
        ((w : List ℕ) → ¬ KeepsLoad round.now ahead.now w)
        (λ v. KeepsLoad round.now ahead.now v.items)) }
{
    let all = (2 << round.n) - 2;
    let kept = kept_below(round, ahead, all, alloc)?;
    if is_kept(round, ahead, &kept, all) {
        Ok(Some(order_of(round, ahead, &kept, all, alloc)?))
    } else {
        Ok(None)
    }
}
