//! Each refusal of a text at its line and field, which of several comes, and the length of a text.
use crate::rounds::text_of;
use round::table::Round;
use std::alloc::{AllocError, Global};
use std::test::Fail;
use text::reading::read_bounded;

/// A round of two doors, cut where the tests go on.
const HEAD: &[u8] = b"round\t2\t0\t9\n";

const DOORS: &[u8] = b"door\t1\t0\t9\t9\t1\t0\ndoor\t2\t0\t9\t9\t1\t-5\n";

const DRIVES: &[u8] = b"drive\t0\t1\t1\ndrive\t1\t-\t10\ndrive\t2\t1\t-\n";

const KEEPER: &[u8] = b"keeper\t1\t7\n";

/// How a text is read: number, line and field of its refusal, or three zeros.
fn outcome(text: &[u8]) -> (u8, usize, usize) {
    let mut round = Round::fresh();
    match read_bounded(&mut round, text) {
        Ok(()) => (0, 0, 0),
        Err(refusal) => (refusal.number(), refusal.line(), refusal.field()),
    }
}

/// How the text is read that goes on from these parts.
fn after(heap: Global, ahead: &[&[u8]], text: &[u8]) -> Result<(u8, usize, usize), AllocError> {
    let mut whole = ahead.concat(heap)?;
    whole.extend_from_slice(text)?;
    Ok(outcome(whole.as_slice()))
}

/// What follows the round line of one door.
const ONE: &[u8] = b"door\t1\t2\t90\t80\t7\t-1\ndrive\t0\t33\ndrive\t1\t-\nkeeper\t1\t42\n";

/// Round lines of one door, and the grid that each gives.
static HEADS: [(&[u8], u16); 3] = [
    (b"round\t1\t4\t5\n", 1),
    (b"round\t1\t4\t5\t1\n", 1),
    (b"round\t1\t4\t5\t60\n", 60),
];

/// Whether the round is that of such a line and what follows it, on any grid.
fn is_example(round: &Round) -> bool {
    let door = round.door(1);
    let is_head = round.n == 1 && round.load == 4 && round.cap == 5;
    let is_timed = door.opens == 2 && door.closes == 90 && door.due == 80 && door.work == 7;
    let is_kept = door.change == -1 && round.keepers.starts_with(&[0, 42, 0]);
    is_head && is_timed && is_kept && round.drive(0, 1) == 33
}

#[test]
fn the_example_is_read_on_each_grid(rt: HostRuntime) -> Result<(), Fail> {
    for (head, grid) in &HEADS {
        let text = [*head, ONE].concat(rt.alloc())?;
        let mut round = Round::fresh();
        round.grid = 7;
        read_bounded(&mut round, text.as_slice())?;
        assert!(rt; is_example(&round), "{grid}");
        assert_eq!(rt; round.grid, *grid);
    }
    Ok(())
}

#[test]
fn a_refusal_leaves_the_round(rt: HostRuntime) {
    let mut round = Round::fresh();
    assert_eq!(rt; round.grid, 1);
    round.grid = 7;
    assert!(rt; read_bounded(&mut round, b"round\t2\t7\t8\t15\nx").is_err());
    assert_eq!(rt; (round.n, round.load, round.cap, round.grid), (1, 0, 0, 7));
}

/// Three doors, the third of which opens at no number.
const NO_NUMBER: &[u8] =
    b"round\t3\t0\t0\ndoor\t1\t0\t3\t3\t2\t0\ndoor\t2\t4\t9\t7\t2\t0\ndoor\t3\tx\t8\t6\t3\t0\ndrive\t0\t0\t0\t0\ndrive\t1\t-\t0\t0\ndrive\t2\t0\t-\t0\ndrive\t3\t0\t0\t-\n";

/// One door, with two keeper lines.
const TWO_KEEPERS: &[u8] =
    b"round\t1\t0\t0\ndoor\t1\t0\t9\t9\t1\t0\ndrive\t0\t1\ndrive\t1\t-\nkeeper\t1\t7\nkeeper\t1\t8\n";

/// Texts, with the line that shows their refusal.
static REFUSED: [(&[u8], &str); 3] = [
    (b"round\t1\t5\t4\n", "refused\t4\t1\t4"),
    (NO_NUMBER, "refused\t3\t4\t3"),
    (TWO_KEEPERS, "refused\t29\t6\t2"),
];

#[test]
fn a_refusal_is_shown_with_tabs(rt: HostRuntime) -> Result<(), Fail> {
    for (text, line) in &REFUSED {
        let mut round = Round::fresh();
        let Err(refusal) = read_bounded(&mut round, text) else {
            return Err(Fail::new("read"));
        };
        assert_eq!(rt; text_of(rt.alloc(), refusal)?.as_str(), *line);
    }
    Ok(())
}

/// A text, the number, line and field that it is refused with, and what is wrong.
type Case<'a> = (&'a [u8], (u8, usize, usize), &'a str);

// A function of its own lends each table, since a check takes long over one that names them all.

static LINES: [Case<'static>; 14] = [
    (b"", (1, 1, 1), "empty text"),
    (b"round\t1\t0\t0", (6, 1, 1), "no line feed"),
    (b"junk", (6, 1, 1), "6 ahead of 1"),
    (b"\n", (1, 1, 1), "blank line"),
    (b"Round\t1\t0\t0\n", (1, 1, 1), "another kind"),
    (b"\xffound\t1\t0\t0\n", (1, 1, 1), "a byte above 127"),
    (b"door\t1\n", (1, 1, 1), "1 ahead of 2"),
    (b"round\n", (2, 1, 1), "kind alone"),
    (b"round\t1\t0\t0\t1\t1\n", (2, 1, 1), "a field too many"),
    (b"round\tx\t0\n", (2, 1, 1), "2 ahead of 3"),
    (b"round\t1\t0\t0\n", (1, 2, 1), "text ends early"),
    (b"round\t1\t0\t0\t1\n", (1, 2, 1), "the least grid"),
    (b"round\t1\t0\t0\t60\n", (1, 2, 1), "the greatest grid"),
    (b"keeper\t1\t7\n", (1, 1, 1), "a keeper ahead of the round"),
];

/// The first lines of a text.
fn lines() -> &'static [Case<'static>] {
    &LINES
}

static NUMBERS: [Case<'static>; 16] = [
    (b"round\t\t0\t0\n", (3, 1, 2), "empty field"),
    (b"round\t+1\t0\t0\n", (3, 1, 2), "plus"),
    (b"round\t01\t0\t0\n", (3, 1, 2), "leading zero"),
    (b"round\t-1\t0\t0\n", (3, 1, 2), "minus outside change"),
    (b"round\t1\t0\t0\r\n", (3, 1, 4), "carriage return"),
    (b"round\t1\xb2\t0\t0\n", (3, 1, 2), "a byte above 127"),
    (b"round\t0\t0\t0\n", (4, 1, 2), "no door"),
    (b"round\t17\t0\t0\n", (4, 1, 2), "too many doors"),
    (b"round\t1\t1000\tx\n", (4, 1, 3), "from the left"),
    (b"round\t1\t5\t4\n", (4, 1, 4), "cap below start load"),
    (b"round\t1\t0\t0\t0\n", (4, 1, 5), "a grid of 0"),
    (b"round\t1\t0\t0\t61\n", (4, 1, 5), "too wide a grid"),
    (b"round\t1\t0\t0\t01\n", (3, 1, 5), "leading zero of a grid"),
    (b"round\t1\t0\t0\t\n", (3, 1, 5), "an empty grid"),
    (b"round\t1\t5\t4\t0\n", (4, 1, 4), "cap ahead of grid"),
    (
        b"round\t1111111111222222222233333333334444444444\t0\t0\n",
        (4, 1, 2),
        "forty digits",
    ),
];

/// The numbers of its first line.
fn numbers() -> &'static [Case<'static>] {
    &NUMBERS
}

/// What may come where a door is due.
static DOOR_LINES: [Case<'static>; 9] = [
    (b"door\t2\t0\t9\t9\t1\t0\n", (5, 2, 2), "out of turn"),
    (b"door\t3\t0\t9\t9\t1\t0\n", (4, 2, 2), "4 ahead of 5"),
    (
        b"door\t2\t0\tx\t9\t1\t0\n",
        (5, 2, 2),
        "the left field first",
    ),
    (b"door\t1\t10000\t9\t9\t1\t0\n", (4, 2, 3), "opens"),
    (b"door\t1\t0\t9\t9\t0\t0\n", (4, 2, 6), "no work"),
    (b"door\t1\t0\t9\t9\t1000\t0\n", (4, 2, 6), "too much work"),
    (b"door\t1\t0\t9\t9\t1\t-0\n", (3, 2, 7), "minus before 0"),
    (b"door\t1\t0\t9\t9\t1\t-100\n", (4, 2, 7), "change"),
    (b"keeper\t1\t7\n", (1, 2, 1), "a keeper ahead of the doors"),
];

/// What may come where a door is due.
fn door_lines() -> &'static [Case<'static>] {
    &DOOR_LINES
}

/// What may come where drives are due.
static DRIVE_LINES: [Case<'static>; 10] = [
    (b"", (1, 4, 1), "drives are due"),
    (b"door\t3\t0\t9\t9\t1\t0\n", (1, 4, 1), "no third door"),
    (b"drive\t1\t-\t1\n", (5, 4, 2), "out of turn"),
    (b"drive\t3\t1\t1\n", (4, 4, 2), "no such place"),
    (b"drive\t0\t-\t1\n", (3, 4, 3), "- where not due"),
    (b"drive\t0\t1\t1000\n", (4, 4, 4), "too far"),
    (b"drive\t0\t1\t1\ndrive\t1\t0\t1\n", (3, 5, 3), "- is due"),
    (b"keeper\t1\t7\n", (1, 4, 1), "a keeper ahead of the drives"),
    (b"keeper\t1\n", (1, 4, 1), "1 ahead of 2"),
    (
        b"drive\t0\t1\t1\ndrive\t1\t-\t10\nkeeper\t1\t7\n",
        (1, 6, 1),
        "a keeper ahead of the last drives",
    ),
];

/// What may come where drives are due.
fn drive_lines() -> &'static [Case<'static>] {
    &DRIVE_LINES
}

/// What may come once all drives are there.
static PAIR_LINES: [Case<'static>; 6] = [
    (b"", (0, 0, 0), "whole"),
    (b"drive\t0\t1\t1\n", (1, 7, 1), "one drive too many"),
    (b"first\t1\t2\nfirst\t1\t2\n", (0, 0, 0), "a pair twice"),
    (b"first\t1\t1\n", (5, 7, 3), "with itself"),
    (b"first\t1\t3\n", (4, 7, 3), "no such door"),
    (b"first\t1\t2", (6, 7, 1), "no line feed"),
];

/// What may come once all drives are there.
fn pair_lines() -> &'static [Case<'static>] {
    &PAIR_LINES
}

/// The lines of keepers, which may come then too.
static KEEPER_LINES: [Case<'static>; 26] = [
    (b"keeper\t1\t1\n", (0, 0, 0), "the least keeper"),
    (b"keeper\t2\t99\n", (0, 0, 0), "the greatest keeper"),
    (b"keeper\t2\t7\nkeeper\t1\t7\n", (0, 0, 0), "one for both"),
    (b"first\t1\t2\nkeeper\t1\t7\n", (0, 0, 0), "after a pair"),
    (
        b"first\t1\t2\nkeeper\t2\t7\nfirst\t1\t2\n",
        (1, 9, 1),
        "a pair, a keeper, a pair",
    ),
    (b"keeper\t1\t7", (6, 7, 1), "no line feed"),
    (b"keepers\t1\t7\n", (1, 7, 1), "another kind"),
    (b"keeper\n", (2, 7, 1), "kind alone"),
    (b"keeper\tx\n", (2, 7, 1), "a field too few, 2 ahead of 3"),
    (b"keeper\t1\t7\t7\n", (2, 7, 1), "a field too many"),
    (b"keeper\tx\t7\n", (3, 7, 2), "a door that is no number"),
    (b"keeper\t-\t7\n", (3, 7, 2), "- for a door"),
    (b"keeper\t\t7\n", (3, 7, 2), "no door"),
    (
        b"keeper\tx\t0\n",
        (3, 7, 2),
        "3 ahead of 4 in the next field",
    ),
    (
        b"keeper\t0\tx\n",
        (4, 7, 2),
        "4 ahead of 3 in the next field",
    ),
    (b"keeper\t0\t7\n", (4, 7, 2), "the yard"),
    (b"keeper\t3\t7\n", (4, 7, 2), "no such door"),
    (b"keeper\t3\tx\n", (4, 7, 2), "the left field first"),
    (b"keeper\t1\t\n", (3, 7, 3), "empty field"),
    (b"keeper\t1\t-\n", (3, 7, 3), "- for a keeper"),
    (b"keeper\t1\t07\n", (3, 7, 3), "leading zero"),
    (b"keeper\t1\t-7\n", (3, 7, 3), "minus outside change"),
    (b"keeper\t1\t7\r\n", (3, 7, 3), "carriage return"),
    (b"keeper\t1\t0\n", (4, 7, 3), "keeper 0"),
    (b"keeper\t1\t100\n", (4, 7, 3), "keeper 100"),
    (
        b"keeper\t1\t1000000000000000000000000000000000000000\n",
        (4, 7, 3),
        "forty digits",
    ),
];

/// The lines of keepers.
fn keeper_lines() -> &'static [Case<'static>] {
    &KEEPER_LINES
}

/// What may come after the keeper of door 1.
static NEXT_LINES: [Case<'static>; 20] = [
    (b"keeper\t2\t7\n", (0, 0, 0), "the keeper of another door"),
    (b"keeper\t1\t7\n", (29, 8, 2), "the same line again"),
    (b"keeper\t1\t8\n", (29, 8, 2), "another keeper"),
    (
        b"keeper\t2\t8\nkeeper\t1\t7\n",
        (29, 9, 2),
        "a door between",
    ),
    (
        b"keeper\t2\t8\nkeeper\t2\t8\n",
        (29, 9, 2),
        "the other door",
    ),
    (
        b"keeper\t1\tx\n",
        (29, 8, 2),
        "29 ahead of 3 in the next field",
    ),
    (
        b"keeper\t1\t0\n",
        (29, 8, 2),
        "29 ahead of 4 in the next field",
    ),
    (
        b"keeper\t1\t100\n",
        (29, 8, 2),
        "29 ahead of 4 above the range",
    ),
    (b"keeper\t0\t7\n", (4, 8, 2), "the yard"),
    (b"keeper\t3\t7\n", (4, 8, 2), "no such door"),
    (b"keeper\tx\t7\n", (3, 8, 2), "no number"),
    (b"keeper\t01\t7\n", (3, 8, 2), "3 ahead of 29"),
    (b"keeper\t1\n", (2, 8, 1), "2 ahead of 29"),
    (b"keeper\t1\t7\t7\n", (2, 8, 1), "a field too many"),
    (b"keeper\t1\t7\njunk", (29, 8, 2), "29 ahead of 6 below"),
    (b"keeper\t1\t7", (6, 8, 1), "6 ahead of 29"),
    (b"first\t1\t2\n", (1, 8, 1), "the pairs have ended"),
    (b"first\n", (1, 8, 1), "1 ahead of 2"),
    (b"drive\t0\t1\t1\n", (1, 8, 1), "the drives have ended"),
    (b"\n", (1, 8, 1), "blank line"),
];

/// What may come after a keeper.
fn next_lines() -> &'static [Case<'static>] {
    &NEXT_LINES
}

/// What is wrong with the first of the texts that is read otherwise than it should be after these parts.
fn first_wrong<'a>(
    heap: Global,
    ahead: &[&[u8]],
    cases: &'a [Case<'a>],
) -> Result<Option<&'a str>, AllocError> {
    for (text, want, what) in cases {
        if after(heap, ahead, text)? != *want {
            return Ok(Some(*what));
        }
    }
    Ok(None)
}

#[test]
fn each_refusal_comes_where_it_should(rt: HostRuntime) -> Result<(), Fail> {
    let parts: [&[u8]; 4] = [HEAD, DOORS, DRIVES, KEEPER];
    for (ahead, cases) in [
        (0, lines()),
        (0, numbers()),
        (1, door_lines()),
        (2, drive_lines()),
        (3, pair_lines()),
        (3, keeper_lines()),
        (4, next_lines()),
    ] {
        assert_eq!(rt; first_wrong(rt.alloc(), &parts[..ahead], cases)?, None);
    }
    Ok(())
}

/// The 84 bytes of the round of two doors, that many lines of 10 bytes, and the last bytes.
fn long(heap: Global, pairs: usize, last: &[u8]) -> Result<(u8, usize, usize), AllocError> {
    let lines = b"first\t1\t2\n".repeat(heap, pairs)?;
    after(heap, &[HEAD, DOORS, DRIVES, lines.as_slice()], last)
}

/// How many such lines, with the last bytes, how the text is read, and its length.
static LONG: [(usize, &[u8], (u8, usize, usize), &str); 3] = [
    (1630, b"", (0, 0, 0), "16,384 bytes"),
    (1630, b"x", (7, 0, 0), "16,385 bytes, 7 ahead of 6"),
    (1700, b"", (7, 0, 0), "longer"),
];

#[test]
fn texts_up_to_16384_bytes(rt: HostRuntime) -> Result<(), Fail> {
    assert_eq!(rt; HEAD.len() + DOORS.len() + DRIVES.len(), 84);
    for (pairs, last, want, what) in &LONG {
        assert_eq!(rt; long(rt.alloc(), *pairs, last)?, *want, "{what}");
    }
    Ok(())
}
