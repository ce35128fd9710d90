//! A layer as a table: a line of column names, and a line for each node, with tabs between the fields.
use crate::words::{ArcWords, SetWords};
use round_sheet::sheet::Place;
use std::fmt;

/// The line of a node: its number in its layer, and its record.
#[derive(Clone, Copy)]
struct NodeRow<'n> {
    number: usize,
    node: &'n Place,
}

impl fmt::Display for NodeRow<'_> {
    ghost use Rattle.std.specs.Prelude.{Some};
    ghost use Rattle.picture.specs.Tables.{row_text};

    ghost output = { λ row. Some (row_text row.number row.node.now) };

    fn fmt<W: fmt::Write>(&self, f: &mut fmt::Formatter<W>) -> fmt::Result {
        let number = self.number;
        let arcs = ArcWords(self.node.arcs.to);
        let down = self.node.label.down;
        let (all, some) = (SetWords(down.all), SetWords(down.some));
        let (finish, lasts) = (down.finish, SetWords(down.lasts));
        let ((visited, load), previous) = down.state;
        let (visited, previous) = (SetWords(visited), SetWords(previous));
        let (low, high) = (load.low, load.high);
        let (doors, minutes) = down.value;
        let up = self.node.label.up;
        let (allup, someup) = (SetWords(up.allup), SetWords(up.someup));
        let late = up.late;
        write!(f, "{number}\t{arcs}\t{all}\t{some}\t{finish}\t")?;
        write!(f, "{lasts}\t{visited}\t{low}\t{high}\t{previous}\t")?;
        writeln!(f, "{doors}\t{minutes}\t{allup}\t{someup}\t{late}")
    }
}

/// The nodes of a layer, as a reading form hands them out, node 1 first: the names of the columns, and a line for each node. A set
/// is its numbers, an arc its door and its target's number with a colon between; a blank stands between each two, and a dash where
/// there are none.
#[derive(Clone, Copy)]
pub struct LayerTable<'n>(pub &'n [Place]);

impl fmt::Display for LayerTable<'_> {
    ghost use Rattle.std.specs.Prelude.{Some};
    ghost use Rattle.picture.specs.Tables.{table_text};

    ghost output = { λ table. Some (table_text table.0.now) };

    fn fmt<W: fmt::Write>(&self, f: &mut fmt::Formatter<W>) -> fmt::Result {
        write!(
            f,
            "node\tarcs\tall\tsome\tfinish\tlasts\tvisited\tlow\thigh\t"
        )?;
        writeln!(f, "previous\tdoors\tminutes\tallup\tsomeup\tlate")?;
        for (k, node) in self.0.iter().enumerate() {
            let row = NodeRow {
                number: k + 1,
                node,
            };
            write!(f, "{row}")?;
        }
        Ok(())
    }
}
