//! Sheets of many rounds: reads texts, each with an empty line after it, and prints the sheet of each in turn, and whether its
//! diagram is settled, to be compared with sheets that another program worked out.
use crate::rounds::{parts_of, round_of};
use anyhow::anyhow;
use round_sheet::sheet::{EMPTY, RECORDS, Sheet};

/// The lines of the sheet; behind that of refine, the second, whether the diagram is settled.
fn print_sheet(rt: &HostRuntime, sheet: &Sheet) -> anyhow::Result<()> {
    let settled = if sheet.settled { "yes" } else { "no" };
    let text = format!(in rt.alloc(); "{sheet}")?;
    for (k, line) in text.as_str().lines().enumerate() {
        println!(rt; "{line}")?;
        if k == 1 {
            println!(rt; "settled\t{settled}")?;
        }
    }
    Ok(())
}

/// The sheet of one text, under its number.
fn print_text(rt: &HostRuntime, number: usize, text: &str) -> anyhow::Result<()> {
    let round = round_of(text)?;
    let n = round.n;
    println!(rt; "sheet\t{number}\tdoors\t{n}")?;
    let mut records = [EMPTY; RECORDS];
    match Sheet::of(&round, &mut records) {
        Ok(sheet) => print_sheet(rt, &sheet),
        Err(_) => Err(anyhow!("the diagram is refused")),
    }
}

pub(crate) fn print_sheets(rt: &HostRuntime, text: &str) -> anyhow::Result<()> {
    let mut number: usize = 0;
    for text in parts_of(rt.alloc(), text)?.iter() {
        number = number.saturating_add(1);
        print_text(rt, number, text)?;
    }
    Ok(())
}
