//! Calls that are lent the rule and the tally of one round or of another in turn: reads cases, makes the calls of each on the
//! diagram of its first round, and prints what they answer, all records that each leaves as one number, and what the diagram then
//! says, to be compared with what another program works out. A case is the texts of two rounds, then a line with the width and a
//! line for each call: 1 or 2 for the round whose rule and tally it is lent, its kind, and three numbers. Each of the three has an
//! empty line after it.
use crate::rounds::{parts_of, round_of};
use anyhow::anyhow;
use diagram::diagram::Diagram;
use diagram::room::Room;
use doors::contains;
use layers::call::{Answer, Call};
use layers::refined::Refined;
use round::table::Round;
use round_sheet::sheet::{EMPTY, Place, RECORDS};
use rules::both::Both;
use rules::side::SideState;
use tallies::late::LateDoors;

/// A diagram under pairs, load, keepers and late doors.
type Work<'a, 'n> = Diagram<'a, 'n, SideState, (u32, u32)>;

/// A call, and whether it is lent the rule and tally of the second round.
#[derive(Clone, Copy)]
struct Lent {
    second: bool,
    call: Call<(u32, u32)>,
}

/// The numbers of a line, 0 for those that it lacks.
fn numbers_of(line: &str) -> anyhow::Result<[u32; 5]> {
    let mut numbers = [0; 5];
    for (number, field) in numbers.iter_mut().zip(line.split('\t')) {
        *number = field.parse::<u32>()?;
    }
    Ok(numbers)
}

/// The call of a line.
fn lent_of(line: &str) -> anyhow::Result<Lent> {
    let [lent, kind, x, y, z] = numbers_of(line)?;
    let call = match kind {
        1 => Call::Sweep,
        2 => Call::Part {
            layer: x as usize,
            node: y as usize,
        },
        3 => Call::Join {
            layer: x as usize,
            first: y as usize,
            second: z as usize,
        },
        4 => Call::Cut { ceiling: (x, y) },
        5 => Call::Refine,
        6 => Call::Backsweep,
        _ => return Err(anyhow!("no such call")),
    };
    Ok(Lent {
        second: lent == 2,
        call,
    })
}

/// What a call answers, as a number: arcs, 0 for done or a refusal, 0 for whole or a layer.
fn number_of(answer: Answer) -> usize {
    match answer {
        Answer::Removed(arcs) => arcs,
        Answer::Done(Ok(())) => 0,
        Answer::Done(Err(refusal)) => usize::from(refusal.number()),
        Answer::Refined(Refined::Whole) => 0,
        Answer::Refined(Refined::Full(layer)) => layer,
    }
}

/// The sum with each of the numbers.
fn add_all(sum: u64, numbers: &[u32]) -> u64 {
    let mut sum = sum;
    for x in numbers {
        sum = sum.wrapping_mul(1_000_003).wrapping_add(u64::from(*x));
    }
    sum
}

/// The sum with the arcs and all labels of a record.
fn add_record(sum: u64, place: &Place) -> u64 {
    let mut sum = sum;
    for t in place.arcs.to {
        sum = add_all(sum, &[u32::from(t)]);
    }
    let down = place.label.down;
    let ((set, load), previous) = down.state;
    let (doors, minutes) = down.value;
    let up = place.label.up;
    add_all(
        sum,
        &[
            down.all,
            down.some,
            down.finish,
            down.lasts,
            set,
            load.low.cast_unsigned(),
            load.high.cast_unsigned(),
            previous,
            doors,
            minutes,
            up.allup,
            up.someup,
            up.late.cast_unsigned(),
        ],
    )
}

/// The records up to the end, as one number.
fn sum_of(round: &Round, width: usize, diagram: &Work<'_, '_>) -> u64 {
    let count = round.n.saturating_mul(width).saturating_add(1);
    let mut sum = 0;
    for place in diagram.nodes().iter().take(count) {
        sum = add_record(sum, place);
    }
    sum
}

/// Bound and musts, and whether the diagram is settled under this round's rule.
fn print_end(rt: &HostRuntime, diagram: &Work<'_, '_>, lent: &Round) -> anyhow::Result<()> {
    match diagram.bound() {
        Some((doors, minutes)) => println!(rt; "bound\t{doors}\t{minutes}")?,
        None => println!(rt; "bound\tnone")?,
    }
    let settled = if diagram.settled(&Both::of(lent)) {
        "yes"
    } else {
        "no"
    };
    println!(rt; "settled\t{settled}")?;
    for (i, set) in diagram.musts().iter().enumerate() {
        for j in 1..17 {
            if contains(*set, j) {
                println!(rt; "must\t{i}\t{j}")?;
            }
        }
    }
    Ok(())
}

/// Makes the calls of the lines after the first on the diagram, and prints what they answer, and the records from opening on.
fn make_calls(
    rt: &HostRuntime,
    diagram: &mut Work<'_, '_>,
    width: usize,
    rounds: &[Round; 2],
    asked: &str,
) -> anyhow::Result<()> {
    let mut round = &rounds[0];
    let sum = sum_of(round, width, diagram);
    println!(rt; "opened\t{sum}")?;
    for line in asked.lines().skip(1) {
        let lent = lent_of(line)?;
        round = &rounds[usize::from(lent.second)];
        let answer = diagram.call(&Both::of(round), &LateDoors::of(round), lent.call);
        let number = number_of(answer);
        let sum = sum_of(round, width, diagram);
        println!(rt; "{number}\t{sum}")?;
    }
    print_end(rt, diagram, round)
}

/// One case: its rounds, and the lines with its width and calls.
fn print_case(rt: &HostRuntime, rounds: &[Round; 2], asked: &str) -> anyhow::Result<()> {
    let width = match asked.lines().next() {
        Some(line) => line.parse::<usize>()?,
        None => return Err(anyhow!("no width")),
    };
    let round = &rounds[0];
    let mut records = [EMPTY; RECORDS];
    match Room::check(round, width, RECORDS) {
        Ok(room) => {
            let mut diagram = Diagram::open(
                room,
                &Both::of(round),
                &LateDoors::of(round),
                &mut records,
            );
            make_calls(rt, &mut diagram, width, rounds, asked)
        }
        Err(_) => Err(anyhow!("the diagram is refused")),
    }
}

/// The cases of a text, each under its number.
pub(crate) fn print_cases(rt: &HostRuntime, text: &str) -> anyhow::Result<()> {
    let mut number: usize = 0;
    for case in parts_of(rt.alloc(), text)?.chunks_exact(3) {
        number = number.saturating_add(1);
        println!(rt; "case\t{number}")?;
        let rounds = [round_of(&case[0])?, round_of(&case[1])?];
        print_case(rt, &rounds, &case[2])?;
    }
    Ok(())
}
