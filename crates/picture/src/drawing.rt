//! A diagram as a picture in the DOT language.
ghost use Rattle.std.specs.Prelude.{◌≡◌, ◌≤◌};
ghost use Rattle.layers.specs.Calls.{layer};
ghost use Rattle.diagram.specs.Reading.{records_in, round_in, width_in};

use crate::groups::{LayerArcs, LayerGroup};
use diagram::reading::ReadingForm;
use round_sheet::sheet::Place;
use rules::side::SideState;
use std::fmt;

/// The reading form of a diagram whose rule is pairs, load and keepers together, and whose tally is late doors.
pub type Form<'a, 'n> = ReadingForm<'a, 'n, SideState, (u32, u32)>;

/// The records of the nodes of layer i.
fn nodes_of<'n>(form: &Form<'_, 'n>, i: usize) -> &'n [Place]
    requires { i ≤ (round_in form.now).n }
    ensures { let n = (round_in form.now).n in
        result.now ≡ layer n (width_in form.now) i (records_in form.now) }
{
    form.layer(i).unwrap()
}

/// A diagram in the DOT language: the layers from the first node on, each as a row of boxes, with the arcs that leave it. A box
/// shows its node's number, all and some, finish and value, and an arc shows its door.
#[derive(Clone, Copy)]
pub struct Picture<'f, 'a, 'n>(pub &'f Form<'a, 'n>);

impl fmt::Display for Picture<'_, '_, '_> {
    ghost use Rattle.std.specs.Prelude.{Some};
    ghost use Rattle.picture.specs.Pictures.{picture_text};

    ghost output = { λ picture. let form = picture.0.now in
        Some (picture_text (round_in form).n (width_in form) (records_in form)) };

    fn fmt<W: fmt::Write>(&self, f: &mut fmt::Formatter<W>) -> fmt::Result {
        let form = self.0;
        let end = form.room().round.n;
        writeln!(f, "digraph diagram {{\n\tnode [shape=box];")?;
        for layer in 0..end {
            let nodes = nodes_of(form, layer);
            let group = LayerGroup { layer, nodes };
            let arcs = LayerArcs { layer, nodes };
            let next = layer + 1;
            writeln!(
                f,
                "{group}{arcs}\tlayer{layer} -> layer{next} [style=invis];"
            )?;
        }
        let group = LayerGroup {
            layer: end,
            nodes: nodes_of(form, end),
        };
        writeln!(f, "{group}}}")
    }
}
