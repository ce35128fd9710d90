//! Reads the text of a round. A line feed ends each line, tabs stand between its fields, and its first field is its kind:
//!   round   the number n of doors, the start load, the cap, and the grid, 1 where it is left out
//!   door    its number, opens, closes, due, work, change    (each door in turn)
//!   drive   a place, the minutes to each door, "-" to itself    (each place in turn, from the yard, 0)
//!   first   two doors, the first ahead of the second    (as often as wanted)
//!   keeper  a door, and the number of its keeper    (after the pairs, at most once for each door)
#![tactic(auto)]

mod cut;
mod draft;
pub mod fault;
mod fields;
pub mod flaw;
pub mod kind;
mod line;
mod number;
pub mod reading;
pub mod refusal;
pub mod stage;
mod step;
mod text;
mod token;
