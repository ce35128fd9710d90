//! Whoever lends a list of records knows it again once the diagram is gone.
ghost use Rattle.std.specs.Prelude.{true, false, ◌≡◌, ◌+◌, ◌*◌, ◌≤◌, length, is_ok, Ok, Err, IfOk, IfErr, IsErr, IsOk};
ghost use Rattle.layers.specs.Settings.{setting, lent_setting};
ghost use Rattle.layers.specs.Calls.{open_answer, after_open, after_calls, bound};

use crate::diagram::Diagram;
use crate::room::Room;
use layers::call::Call;
use layers::node::Node;
use layers::refusal::Refusal;
use layers::setting::Setting;
use round::table::Round;
use rules::rule::Rule;
use tallies::tally::Tally;

fn opened<R: Rule, T: Tally>(
    room: Room<'_>,
    rule: &R,
    tally: &T,
    records: &mut [Node<R::State, T::Value>],
)
    requires { room.round.now.n * room.width + 1 ≤ length records.old }
    ensures { let by = setting room.entry.round.now (R.sense rule.now) (T.sense tally.now)
        room.entry.width in
        records.new ≡ after_open by records.old }
{
    let _diagram = Diagram::open(room, rule, tally, records);
}

/// Opened, and whether it was; a refusal leaves the list as it was lent.
pub fn opened_or_left<R: Rule, T: Tally>(
    round: &Round,
    width: usize,
    rule: &R,
    tally: &T,
    records: &mut [Node<R::State, T::Value>],
) -> bool
    ensures answer { result ≡ is_ok (open_answer round.now.n width (length records.old)) }
    ensures left { result ≡ false → records.new ≡ records.old }
    ensures opened { let by = setting round.now (R.sense rule.now) (T.sense tally.now) width in
        result ≡ true → records.new ≡ after_open by records.old }
{
    match Room::check(round, width, records.len()) {
        Ok(room) => {
            opened(room, rule, tally, records);
            true
        }
        Err(_) => false,
    }
}

fn done_in<R: Rule, T: Tally>(
    room: Room<'_>,
    rule: &R,
    tally: &T,
    records: &mut [Node<R::State, T::Value>],
    calls: &[Call<T::Value>],
)
    requires { room.round.now.n * room.width + 1 ≤ length records.old }
    ensures { let by = setting room.entry.round.now (R.sense rule.now) (T.sense tally.now)
        room.entry.width in
        records.new ≡ after_calls by calls.now (after_open by records.old) }
{
    let mut diagram = Diagram::open(room, rule, tally, records);
    diagram.run(rule, tally, calls);
}

/// Opens a diagram on the list, does the calls on it one after another, whatever each answers, and lets it go: the list is then
/// what these calls leave of it. A refusal to open leaves the list as it was lent.
pub fn worked_on<R: Rule, T: Tally>(
    by: &Setting<'_, R, T>,
    records: &mut [Node<R::State, T::Value>],
    calls: &[Call<T::Value>],
) -> Result<(), Refusal>
    ensures answer { result ≡ open_answer by.now.round.now.n by.now.width (length records.old) }
    ensures left { IsErr result → records.new ≡ records.old }
    ensures worked { let by = lent_setting by.now (R.sense by.now.rule.now)
        (T.sense by.now.tally.now) in
        IsOk result → records.new ≡ after_calls by calls.now (after_open by records.old) }
{
    let room = Room::check(by.round, by.width, records.len())?;
    done_in(room, by.rule, by.tally, records, calls);
    Ok(())
}

fn bound_in<R: Rule, T: Tally>(
    room: Room<'_>,
    rule: &R,
    tally: &T,
    records: &mut [Node<R::State, T::Value>],
    calls: &[Call<T::Value>],
) -> Option<T::Value>
    requires { room.round.now.n * room.width + 1 ≤ length records.old }
    ensures records { let by = setting room.entry.round.now (R.sense rule.now) (T.sense tally.now)
        room.entry.width in
        records.new ≡ after_calls by calls.now (after_open by records.old) }
    ensures bound { result ≡ bound room.entry.round.now.n room.entry.width records.new }
{
    let mut diagram = Diagram::open(room, rule, tally, records);
    diagram.run(rule, tally, calls);
    let form = diagram.reading_form();
    form.bound()
}

/// Opens a diagram on the list, does the calls on it, asks its reading form for the bound, and lets form and diagram go: the list is
/// then what these calls leave of it. A refusal to open leaves the list as it was lent.
pub fn bound_after<R: Rule, T: Tally>(
    by: &Setting<'_, R, T>,
    records: &mut [Node<R::State, T::Value>],
    calls: &[Call<T::Value>],
) -> Result<Option<T::Value>, Refusal>
    ensures refused { IfErr result
        (λ e. open_answer by.now.round.now.n by.now.width (length records.old) ≡ Err e) }
    ensures opened { IsOk result
        → open_answer by.now.round.now.n by.now.width (length records.old) ≡ Ok tt }
    ensures left { IsErr result → records.new ≡ records.old }
    ensures worked { let by = lent_setting by.now (R.sense by.now.rule.now)
        (T.sense by.now.tally.now) in
        IsOk result → records.new ≡ after_calls by calls.now (after_open by records.old) }
    ensures bound { IfOk result (λ v. v ≡ bound by.now.round.now.n by.now.width records.new) }
{
    let room = Room::check(by.round, by.width, records.len())?;
    Ok(bound_in(room, by.rule, by.tally, records, calls))
}
