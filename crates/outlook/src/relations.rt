//! What holds of two doors of a round, as lines.
ghost use Rattle.std.specs.Prelude.{◌≡◌, ◌≤◌};
ghost use Rattle.outlook.specs.Relations.{holds};

use crate::outlook::Outlook;
use doors::contains;
use std::fmt;

/// What may hold of doors i and j of a round.
#[derive(Clone, Copy, Debug, PartialEq, Eq)]
pub(crate) enum Relation {
    /// a pair puts i ahead of j
    Pair,
    /// several pairs, one after the other, put i ahead of another door j, and no pair does
    Follows,
    /// i is j, and has to come ahead of itself
    Circle,
    /// i is below j, and they have one keeper
    Keeper,
}

impl Relation {
    /// Whether it holds of doors i and j.
    fn holds(self, outlook: &Outlook<'_>, i: usize, j: usize) -> bool
        requires i_in { i ≤ 16 }
        requires j_in { j ≤ 16 }
        ensures { result ≡ holds self outlook.now i j }
    {
        let (pairs, ahead) = (outlook.round.ahead[j], outlook.ahead[j]);
        let keepers = &outlook.round.keepers;
        match self {
            Relation::Pair => contains(pairs, i),
            Relation::Follows => contains(ahead, i) && !contains(pairs, i) && i != j,
            Relation::Circle => i == j && contains(ahead, j),
            Relation::Keeper => i < j && keepers[j] != 0 && keepers[i] == keepers[j],
        }
    }
}

/// The line of doors i and j.
#[derive(Clone, Copy)]
struct RelationLine {
    relation: Relation,
    keeper: u16,
    i: usize,
    j: usize,
}

impl fmt::Display for RelationLine {
    ghost use Rattle.std.specs.Prelude.{Some};
    ghost use Rattle.outlook.specs.Relations.{relation_line};

    ghost output = { λ line. Some (relation_line line.relation line.keeper line.i line.j) };

    fn fmt<W: fmt::Write>(&self, f: &mut fmt::Formatter<W>) -> fmt::Result {
        let (keeper, i, j) = (self.keeper, self.i, self.j);
        match self.relation {
            Relation::Pair => writeln!(f, "pair: door {i} ahead of door {j}"),
            Relation::Follows => writeln!(f, "follows: door {i} ahead of door {j}"),
            Relation::Circle => {
                writeln!(
                    f,
                    "circle: door {j} ahead of itself, which no order can keep"
                )
            }
            Relation::Keeper => writeln!(
                f,
                "keeper {keeper}: doors {i} and {j} not one straight after the other"
            ),
        }
    }
}

/// A line for each door of which the relation with door j holds.
#[derive(Clone, Copy)]
struct LinesWith<'o, 'a> {
    relation: Relation,
    outlook: &'o Outlook<'a>,
    j: usize,
    ghost inside: { j ≤ 16 },
}

impl fmt::Display for LinesWith<'_, '_> {
    ghost use Rattle.std.specs.Prelude.{Some};
    ghost use Rattle.outlook.specs.Relations.{lines_with};

    ghost output = { λ lines. let o = lines.outlook.now in
        Some (lines_with lines.relation o lines.j o.round.now.n) };

    fn fmt<W: fmt::Write>(&self, f: &mut fmt::Formatter<W>) -> fmt::Result {
        let (relation, outlook, j) = (self.relation, self.outlook, self.j);
        let keeper = outlook.round.keepers[j];
        for i in 1..outlook.round.n + 1 {
            if relation.holds(outlook, i, j) {
                let line = RelationLine {
                    relation,
                    keeper,
                    i,
                    j,
                };
                write!(f, "{line}")?;
            }
        }
        Ok(())
    }
}

/// A line for each two doors of which the relation holds, by the second, then by the first door.
#[derive(Clone, Copy)]
pub(crate) struct RelationLines<'o, 'a> {
    pub(crate) relation: Relation,
    pub(crate) outlook: &'o Outlook<'a>,
}

impl fmt::Display for RelationLines<'_, '_> {
    ghost use Rattle.std.specs.Prelude.{Some};
    ghost use Rattle.outlook.specs.Relations.{relation_lines};

    ghost output = { λ lines. let o = lines.outlook.now in
        Some (relation_lines lines.relation o o.round.now.n) };

    fn fmt<W: fmt::Write>(&self, f: &mut fmt::Formatter<W>) -> fmt::Result {
        let (relation, outlook) = (self.relation, self.outlook);
        for j in 1..outlook.round.n + 1 {
            let lines = LinesWith {
                relation,
                outlook,
                j,
            };
            write!(f, "{lines}")?;
        }
        Ok(())
    }
}
