//! The lines of a whole text.
ghost use Rattle.std.specs.Prelude.{◌≡◌};
ghost use Rattle.text.specs.Reading.{read_text};

use crate::cut::cut_at;
use crate::draft::Draft;
use crate::fields::Line;
use crate::refusal::Refusal;
use crate::stage::Stage;
use crate::step::take_line;

pub(crate) fn draft_of(text: &[u8]) -> Result<Draft, Refusal>
    ensures { result ≡ read_text text.now }
{
    let mut draft = Draft::new();
    let mut stage = Stage::Head;
    let mut rest = text;
    let mut number = 1;
    while let Some((bytes, after)) = cut_at(rest, b'\n') {
        stage = take_line(&mut draft, stage, &Line::new(bytes, number))?;
        rest = after;
        number += 1;
    }
    if !rest.is_empty() {
        return Err(Refusal::Unended { line: number });
    }
    match stage {
        Stage::Pairs | Stage::Keepers => Ok(draft),
        _ => Err(Refusal::NotDue { line: number }),
    }
}
