//! The parts of a picture: for each layer its nodes, and the arcs that leave them.
ghost use Rattle.std.specs.Prelude.{◌<◌};

use crate::words::SetWords;
use round_sheet::sheet::Place;
use std::fmt;

/// A node of a layer, with what its box says: its number, all and some, finish and value.
#[derive(Clone, Copy)]
struct NodeBox<'n> {
    layer: usize,
    number: usize,
    node: &'n Place,
}

impl fmt::Display for NodeBox<'_> {
    ghost use Rattle.std.specs.Prelude.{Some};
    ghost use Rattle.picture.specs.Pictures.{box_text};

    ghost output = { λ drawn. Some (box_text drawn.layer drawn.number drawn.node.now) };

    fn fmt<W: fmt::Write>(&self, f: &mut fmt::Formatter<W>) -> fmt::Result {
        let (layer, number) = (self.layer, self.number);
        let down = self.node.label.down;
        let (all, some) = (SetWords(down.all), SetWords(down.some));
        let finish = down.finish;
        let (doors, minutes) = down.value;
        writeln!(
            f,
            "\t\tn{layer}_{number} [label=\"{number}\\nall {all}\\nsome {some}\\nfinish {finish}\\nvalue {doors} {minutes}\"];"
        )
    }
}

/// A layer: its name, and its nodes beside one another.
#[derive(Clone, Copy)]
pub struct LayerGroup<'n> {
    pub layer: usize,
    pub nodes: &'n [Place],
}

#[tactic(auto, unfolding(crate::specs::Pictures::group_text))]
impl fmt::Display for LayerGroup<'_> {
    ghost use Rattle.std.specs.Prelude.{Some};
    ghost use Rattle.picture.specs.Pictures.{group_text};

    ghost output = { λ group. Some (group_text group.layer group.nodes.now) };

    fn fmt<W: fmt::Write>(&self, f: &mut fmt::Formatter<W>) -> fmt::Result {
        let layer = self.layer;
        writeln!(
            f,
            "\tsubgraph {{\n\t\trank=same;\n\t\tlayer{layer} [shape=plaintext, label=\"layer {layer}\"];"
        )?;
        for (k, node) in self.nodes.iter().enumerate() {
            let number = k + 1;
            let part = NodeBox {
                layer,
                number,
                node,
            };
            write!(f, "{part}")?;
        }
        writeln!(f, "\t}}")
    }
}

/// The arcs that leave a node, by door, each with the number of its target in the next layer: 0 is no arc.
#[derive(Clone, Copy)]
struct NodeArcs {
    layer: usize,
    number: usize,
    to: [u8; 16],
    ghost before_end: { layer < 16 },
}

impl fmt::Display for NodeArcs {
    ghost use Rattle.std.specs.Prelude.{Some};
    ghost use Rattle.picture.specs.Pictures.{arc_lines};

    ghost output = { λ arcs. Some (arc_lines arcs.layer arcs.number arcs.to) };

    fn fmt<W: fmt::Write>(&self, f: &mut fmt::Formatter<W>) -> fmt::Result {
        let (layer, number) = (self.layer, self.number);
        let next = layer + 1;
        for (k, target) in self.to.iter().enumerate() {
            if *target != 0 {
                let door = k + 1;
                writeln!(
                    f,
                    "\tn{layer}_{number} -> n{next}_{target} [label=\"{door}\"];"
                )?;
            }
        }
        Ok(())
    }
}

/// The arcs that leave the nodes of a layer.
#[derive(Clone, Copy)]
pub struct LayerArcs<'n> {
    pub layer: usize,
    pub nodes: &'n [Place],
    ghost before_end: { layer < 16 },
}

impl fmt::Display for LayerArcs<'_> {
    ghost use Rattle.std.specs.Prelude.{Some};
    ghost use Rattle.picture.specs.Pictures.{arcs_after};

    ghost output = { λ arcs. Some (arcs_after arcs.layer arcs.nodes.now) };

    fn fmt<W: fmt::Write>(&self, f: &mut fmt::Formatter<W>) -> fmt::Result {
        let layer = self.layer;
        for (k, node) in self.nodes.iter().enumerate() {
            let arcs = NodeArcs {
                layer,
                number: k + 1,
                to: node.arcs.to,
            };
            write!(f, "{arcs}")?;
        }
        Ok(())
    }
}
