//! Packed calls on the diagram of a round: the words of its sheet after lists of calls of every kind, and what is refused.
use packed::often::{Question, ask_often, refine_often};
use packed::refusal::code_of;
use packed::sheet::sheet;
use std::alloc::{AllocError, Global};

/// A call as its four words.
type Call = [u32; 4];

const SWEEP: Call = [1, 0, 0, 0];

const REFINE: Call = [5, 0, 0, 0];

const BACKSWEEP: Call = [6, 0, 0, 0];

/// Calls of every kind, and every refusal that a call has.
const MANY: [Call; 24] = [
    REFINE,
    [2, 0, 1, 0],
    [2, 6, 1, 0],
    [2, 2, 4, 0],
    [2, 2, 0, 0],
    [2, 1, 1, 0],
    [2, 3, 1, 0],
    [3, 0, 1, 2],
    [3, 2, 1, 4],
    [3, 2, 2, 2],
    [3, 2, 1, 2],
    [3, 3, 1, 2],
    [3, 3, 2, 3],
    [2, 2, 1, 0],
    [2, 3, 1, 0],
    [2, 3, 2, 0],
    [3, 5, 1, 2],
    [4, 2, 40, 0],
    SWEEP,
    BACKSWEEP,
    [4, 1, 30, 0],
    SWEEP,
    [4, 1, 25, 0],
    BACKSWEEP,
];

/// No call has this kind.
const UNKNOWN: Call = [7, 0, 0, 0];

/// The text has a keeper for this door already.
const SECOND_KEEPER: &[u8] = b"keeper\t5\t7\n";

/// A byte that no case writes.
const FILL: u8 = 0xee;

/// What a sheet is made of.
#[derive(Clone, Copy)]
struct Case<'a> {
    name: &'a str,
    text: &'a [u8],
    width: usize,
    calls: &'a [u8],
    room: usize,
}

fn bytes_of(alloc: Global, calls: &[Call]) -> Result<Vec<u8>, AllocError> {
    let mut bytes = Vec::new(alloc);
    for call in calls {
        for word in call {
            bytes.extend_from_slice(&word.to_le_bytes())?;
        }
    }
    Ok(bytes)
}

/// The text with more pairs than a text has room for.
fn long_text(alloc: Global, text: &[u8]) -> Result<Vec<u8>, AllocError> {
    let mut long = Vec::from_slice(alloc, text)?;
    for _ in 0..1639 {
        long.extend_from_slice(b"first\t1\t2\n")?;
    }
    Ok(long)
}

fn print_words(rt: &HostRuntime, bytes: &[u8]) -> anyhow::Result<()> {
    for k in 0..bytes.len() / 4 {
        let at = 4 * k;
        let word = u32::from_le_bytes([bytes[at], bytes[at + 1], bytes[at + 2], bytes[at + 3]]);
        print!(rt; "\t{word}")?;
    }
    println!(rt;)?;
    Ok(())
}

/// Prints what the sheet answers, whether the bytes behind what it writes are left, and its words.
fn print_sheet(rt: &HostRuntime, case: Case<'_>) -> anyhow::Result<()> {
    let mut out = vec![in rt.alloc(); FILL; case.room]?;
    let (answer, long) = match sheet(case.text, case.width, case.calls, out.as_mut_slice()) {
        Ok(long) => (long as i64, long),
        Err(refusal) => (refusal.code(), 0),
    };
    let (words, behind) = out.as_slice().split_at(long);
    let left = behind.iter().all(|byte| *byte == FILL);
    print!(rt;
        "{}\t{answer}\t{}",
        case.name,
        if left { "left" } else { "written" }
    )?;
    print_words(rt, words)
}

/// Sheets after calls.
fn print_sheets(rt: &HostRuntime, text: &[u8]) -> anyhow::Result<()> {
    let sheets: [(&str, usize, &[Call]); 7] = [
        ("opened", 3, &[]),
        ("sweeps", 3, &[SWEEP, SWEEP, REFINE, SWEEP]),
        ("backsweeps", 3, &[BACKSWEEP, BACKSWEEP, SWEEP, BACKSWEEP]),
        ("many", 3, &MANY),
        ("none", 3, &[REFINE, [4, 0, 0, 0]]),
        ("narrow", 1, &[REFINE]),
        ("wide", 128, &[REFINE]),
    ];
    for (name, width, calls) in sheets {
        let calls = bytes_of(rt.alloc(), calls)?;
        let room = 88 + 4 * (calls.len() / 16) + 5;
        let calls = calls.as_slice();
        print_sheet(
            rt,
            Case {
                name,
                text,
                width,
                calls,
                room,
            },
        )?;
    }
    Ok(())
}

/// Texts that are refused.
fn print_bad_texts(rt: &HostRuntime, fits: Case<'_>) -> anyhow::Result<()> {
    let text = fits.text;
    let unended = match text.split_last() {
        Some((_, front)) => front,
        None => text,
    };
    let long = long_text(rt.alloc(), text)?;
    let second = [text, SECOND_KEEPER].concat(rt.alloc())?;
    let cases = [
        Case {
            name: "no text",
            text: b"",
            ..fits
        },
        Case {
            name: "unended text",
            text: unended,
            ..fits
        },
        Case {
            name: "long text",
            text: long.as_slice(),
            ..fits
        },
        Case {
            name: "second keeper",
            text: second.as_slice(),
            ..fits
        },
    ];
    for case in cases {
        print_sheet(rt, case)?;
    }
    Ok(())
}

/// Widths, calls and room that are refused.
fn print_bad_asks(rt: &HostRuntime, fits: Case<'_>, unknown: &[u8]) -> anyhow::Result<()> {
    let half = match fits.calls.split_first_chunk::<8>() {
        Some((front, _)) => front.as_slice(),
        None => fits.calls,
    };
    let cases = [
        Case {
            name: "width 0",
            width: 0,
            ..fits
        },
        Case {
            name: "width 129",
            width: 129,
            ..fits
        },
        Case {
            name: "half a call",
            calls: half,
            ..fits
        },
        Case {
            name: "unknown call",
            calls: unknown,
            ..fits
        },
        Case {
            name: "no room",
            room: 91,
            ..fits
        },
    ];
    for case in cases {
        print_sheet(rt, case)?;
    }
    Ok(())
}

/// Which of two refusals comes first.
fn print_first_of_two(rt: &HostRuntime, fits: Case<'_>, unknown: &[u8]) -> anyhow::Result<()> {
    let cases = [
        Case {
            name: "no text, width 0",
            text: b"",
            width: 0,
            ..fits
        },
        Case {
            name: "width 0, unknown call",
            width: 0,
            calls: unknown,
            ..fits
        },
        Case {
            name: "unknown call, no room",
            calls: unknown,
            room: 91,
            ..fits
        },
    ];
    for case in cases {
        print_sheet(rt, case)?;
    }
    Ok(())
}

/// A sheet that fits, and every refusal.
fn print_refusals(rt: &HostRuntime, text: &[u8]) -> anyhow::Result<()> {
    let one = bytes_of(rt.alloc(), &[REFINE])?;
    let unknown = bytes_of(rt.alloc(), &[REFINE, UNKNOWN])?;
    let fits = Case {
        name: "fits",
        text,
        width: 4,
        calls: one.as_slice(),
        room: 92,
    };
    print_sheet(rt, fits)?;
    print_bad_texts(rt, fits)?;
    print_bad_asks(rt, fits, unknown.as_slice())?;
    print_first_of_two(rt, fits, unknown.as_slice())
}

/// The last answer of so many refines; of asking so many times whether the diagram is settled, once it is refined; and for its musts.
fn print_often(rt: &HostRuntime, text: &[u8]) -> anyhow::Result<()> {
    let cases: [(&[u8], usize, usize); 7] = [
        (text, 1, 0),
        (text, 1, 1),
        (text, 1, 3),
        (text, 3, 2),
        (text, 128, 2),
        (text, 129, 2),
        (b"", 3, 2),
    ];
    for (text, width, times) in cases {
        let refined = code_of(refine_often(text, width, times));
        let settled = code_of(ask_often(text, width, times, Question::Settled));
        let musts = code_of(ask_often(text, width, times, Question::Musts));
        println!(rt; "often\t{width}\t{times}\t{refined}\t{settled}\t{musts}")?;
    }
    Ok(())
}

/// All of these for the round of a text.
pub(crate) fn print_calls(rt: &HostRuntime, text: &[u8]) -> anyhow::Result<()> {
    print_sheets(rt, text)?;
    print_refusals(rt, text)?;
    print_often(rt, text)
}
