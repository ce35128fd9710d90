//! One line more of the text.
ghost use Rattle.std.specs.Prelude.{◌≡◌, ◌≤◌, IfOk, OnErr};
ghost use Rattle.text.specs.Lines.{fields_of};
ghost use Rattle.text.specs.Steps.{Ready, went, keeper_step, kind_step, line_step};
ghost use Rattle.text.specs.declared.kind.Kind.TheVariants.{Round, Door, Drive, First};
ghost use Rattle.text.specs.declared.stage.Stage.TheVariants.{Head, Doors, Drives, Pairs};

use crate::draft::Draft;
use crate::fields::Line;
use crate::kind::Kind;
use crate::line::{door_due, head_of, keeper_of, pair_of, row_due};
use crate::refusal::Refusal;
use crate::stage::Stage;

fn take_head(draft: &mut Draft, line: &Line<'_>) -> Result<Stage, Refusal>
    ensures step { went result draft.new
        ≡ kind_step Head Round draft.old line.now.number (fields_of line.now) }
    ensures ready { IfOk result (λ s. Ready s draft.new) }
    ensures stays { OnErr result (draft.new ≡ draft.old) }
{
    draft.set_head(head_of(line)?);
    Ok(Stage::Doors(1))
}

fn take_door(draft: &mut Draft, due: u16, line: &Line<'_>) -> Result<Stage, Refusal>
    requires due { due ≤ draft.old.n }
    requires most { draft.old.n ≤ 16 }
    ensures step { went result draft.new
        ≡ kind_step (Doors due) Door draft.old line.now.number (fields_of line.now) }
    ensures ready { IfOk result (λ s. Ready s draft.new) }
    ensures stays { OnErr result (draft.new ≡ draft.old) }
{
    let door = door_due(line, draft.n, due)?;
    draft.set_door(due, door);
    if due < draft.n {
        Ok(Stage::Doors(due + 1))
    } else {
        Ok(Stage::Drives(0))
    }
}

fn take_drive(draft: &mut Draft, from: u16, line: &Line<'_>) -> Result<Stage, Refusal>
    requires due { from ≤ draft.old.n }
    requires most { draft.old.n ≤ 16 }
    ensures step { went result draft.new
        ≡ kind_step (Drives from) Drive draft.old line.now.number (fields_of line.now) }
    ensures ready { IfOk result (λ s. Ready s draft.new) }
    ensures stays { OnErr result (draft.new ≡ draft.old) }
{
    let row = row_due(line, draft.n, from)?;
    draft.set_row(from, row);
    if from < draft.n {
        Ok(Stage::Drives(from + 1))
    } else {
        Ok(Stage::Pairs)
    }
}

fn take_pair(draft: &mut Draft, line: &Line<'_>) -> Result<Stage, Refusal>
    requires { draft.old.n ≤ 16 }
    ensures step { went result draft.new
        ≡ kind_step Pairs First draft.old line.now.number (fields_of line.now) }
    ensures ready { IfOk result (λ s. Ready s draft.new) }
    ensures stays { OnErr result (draft.new ≡ draft.old) }
{
    let pair = pair_of(line, draft.n)?;
    draft.add_pair(pair);
    Ok(Stage::Pairs)
}

fn take_keeper(draft: &mut Draft, line: &Line<'_>) -> Result<Stage, Refusal>
    requires { draft.old.n ≤ 16 }
    ensures step { went result draft.new
        ≡ keeper_step draft.old line.now.number (fields_of line.now) }
    ensures ready { IfOk result (λ s. Ready s draft.new) }
    ensures stays { OnErr result (draft.new ≡ draft.old) }
{
    let keeper = keeper_of(line, draft.n, &draft.keepers)?;
    draft.set_keeper(keeper);
    Ok(Stage::Keepers)
}

/// One line, whose kind has to be due.
pub(crate) fn take_line(draft: &mut Draft, stage: Stage, line: &Line<'_>) -> Result<Stage, Refusal>
    requires { Ready stage draft.old }
    ensures step { went result draft.new
        ≡ line_step stage draft.old line.now.number (fields_of line.now) }
    ensures ready { IfOk result (λ s. Ready s draft.new) }
    ensures stays { OnErr result (draft.new ≡ draft.old) }
{
    match (stage, line.kind()) {
        (Stage::Head, Kind::Round) => take_head(draft, line),
        (Stage::Doors(due), Kind::Door) => take_door(draft, due, line),
        (Stage::Drives(from), Kind::Drive) => take_drive(draft, from, line),
        (Stage::Pairs, Kind::First) => take_pair(draft, line),
        (Stage::Pairs | Stage::Keepers, Kind::Keeper) => take_keeper(draft, line),
        _ => Err(Refusal::NotDue { line: line.number }),
    }
}
