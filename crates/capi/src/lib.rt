//! What C calls: a round sheet in one call, on numbers and bytes. The header morvuges.h says how they are laid out.
#![tactic(auto)]

ghost use Rattle.std.specs.Prelude.{◌≡◌, length};
ghost use Rattle.packed.specs.Often.{often_of, asked_often};
ghost use Rattle.packed.specs.declared.often.Question.TheVariants.{Settled, Musts};
ghost use Rattle.packed.specs.Sheets.{sheet_of, byte_count, written, code, OnRead};

use packed::often::{Question, ask_often, refine_often};
use packed::refusal::code_of;
use packed::sheet::sheet;

/// Reads a round, opens its diagram, makes the calls, and writes what the diagram then says and the answer of each.
#[unsafe(no_mangle)]
pub extern "C" fn morvuges_sheet(text: &[u8], width: usize, calls: &[u8], out: &mut [u8]) -> i64
    ensures answer { OnRead text.now
        (λ t. result ≡ code (byte_count (sheet_of width calls.now (length out.old) t))) }
    ensures out { OnRead text.now
        (λ t. out.new ≡ written (sheet_of width calls.now (length out.old) t) out.old) }
{
    match sheet(text, width, calls, out) {
        Ok(long) => long as i64,
        Err(refusal) => refusal.code(),
    }
}

/// Reads a round, and so many times over opens its diagram and refines it; answers as the last refine did.
#[unsafe(no_mangle)]
pub extern "C" fn morvuges_refine_often(text: &[u8], width: usize, times: usize) -> i64
    ensures { OnRead text.now (λ t. result ≡ code (often_of width times t)) }
{
    code_of(refine_often(text, width, times))
}

/// Reads a round, opens its diagram and refines it, and asks so many times over whether it is settled; answers as the last time.
#[unsafe(no_mangle)]
pub extern "C" fn morvuges_settled_often(text: &[u8], width: usize, times: usize) -> i64
    ensures { OnRead text.now (λ t. result ≡ code (asked_often Settled width times t)) }
{
    code_of(ask_often(text, width, times, Question::Settled))
}

/// Reads a round, opens its diagram and refines it, and asks for all musts so many times over; answers how many the last time had.
#[unsafe(no_mangle)]
pub extern "C" fn morvuges_musts_often(text: &[u8], width: usize, times: usize) -> i64
    ensures { OnRead text.now (λ t. result ≡ code (asked_often Musts width times t)) }
{
    code_of(ask_often(text, width, times, Question::Musts))
}
