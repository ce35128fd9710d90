//! The diagram of a round's side rules and late doors, put to work by packed calls.
ghost use Rattle.std.specs.Prelude.{◌≡◌, ◌*◌, ◌/◌, ◌≤◌, IsSome, length};
ghost use Rattle.layers.specs.Calls.{after_call, answer_of, after_calls};
ghost use Rattle.refine.specs.Answers.{IsInnerIfFull};
ghost use Rattle.allowed.specs.Senses.{side_of};
ghost use Rattle.diagram.specs.Words.{room_of, records_of};
ghost use Rattle.packed.specs.Answers.{word_of_refusal, word_of_refined, word_of, answers};
ghost use Rattle.packed.specs.Requests.{requests_of, requests_in};
ghost use Rattle.packed.specs.Senses.{setting_by};
ghost use Rattle.rules.specs.Sides.{side_sense};
ghost use Rattle.packed.specs.Words.{begun_with};

use crate::call::{CALL, call_at};
use crate::words::{count_word, put_word};
use diagram::diagram::Diagram;
use layers::call::{Answer, Call};
use layers::node::Node;
use layers::refined::Refined;
use layers::refusal::Refusal;
use round::table::Round;
use rules::both::Both;
use rules::side::{SideRule, SideState};
use tallies::late::LateDoors;

pub(crate) type Cost = (u32, u32);

pub(crate) type Place = Node<SideState, Cost>;

/// The side rules of a round.
pub(crate) fn side<'a>(round: &'a Round) -> SideRule<'a>
    ensures { side_sense result ≡ side_of round.now }
{
    Both::of(round)
}

/// The answer of a part or a join as a word.
fn done(answer: Result<(), Refusal>) -> u32
    ensures { result ≡ word_of_refusal answer }
{
    match answer {
        Ok(()) => 0,
        Err(refusal) => u32::from(refusal.number()),
    }
}

/// The answer of a refine as a word.
pub(crate) fn layer_of(refined: Refined) -> u32
    requires { IsInnerIfFull 16 refined }
    ensures { result ≡ word_of_refined refined }
{
    match refined {
        Refined::Whole => 0,
        Refined::Full(layer) => count_word(layer),
    }
}

/// Makes one call, and gives its answer as a word.
fn make(
    diagram: &mut Diagram<'_, '_, SideState, Cost>,
    rule: &SideRule<'_>,
    tally: &LateDoors<'_>,
    call: Call<Cost>,
) -> u32
    ensures room { room_of diagram.new ≡ room_of diagram.old }
    ensures records { let by = setting_by diagram.old rule.now tally.now in
        records_of diagram.new ≡ after_call by call (records_of diagram.old) }
    ensures answer { let by = setting_by diagram.old rule.now tally.now in
        result ≡ word_of (answer_of by call (records_of diagram.old)) }
{
    match diagram.call(rule, tally, call) {
        Answer::Removed(arcs) => count_word(arcs),
        Answer::Done(outcome) => done(outcome),
        Answer::Refined(refined) => layer_of(refined),
    }
}

/// Makes the calls in turn, and writes their answers.
pub(crate) fn make_all(
    diagram: &mut Diagram<'_, '_, SideState, Cost>,
    rule: &SideRule<'_>,
    tally: &LateDoors<'_>,
    calls: &[u8],
    out: &mut [u8],
)
    requires calls { IsSome (requests_of calls.now) }
    requires fits { length calls.now / 4 ≤ length out.old }
    ensures room { room_of diagram.new ≡ room_of diagram.old }
    ensures records { let by = setting_by diagram.old rule.now tally.now in
        records_of diagram.new ≡ after_calls by (requests_in calls.now) (records_of diagram.old) }
    ensures answers { let by = setting_by diagram.old rule.now tally.now in
        out.new
        ≡ begun_with (answers by (requests_in calls.now) (records_of diagram.old)) out.old }
{
    for k in 0..calls.len() / CALL {
        if let Some(call) = call_at(calls, k * CALL) {
            put_word(out, 4 * k, make(diagram, rule, tally, call));
        }
    }
}
