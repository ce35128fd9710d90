//! Sets and arcs as words with a blank between each two, and a dash where there are none.
use doors::{DoorSet, contains};
use std::fmt;

/// The numbers of a set, in order.
#[derive(Clone, Copy)]
pub struct SetWords(pub DoorSet);

impl fmt::Display for SetWords {
    ghost use Rattle.std.specs.Prelude.{Some};
    ghost use Rattle.picture.specs.Words.{set_text};

    ghost output = { λ words. Some (set_text words.0) };

    fn fmt<W: fmt::Write>(&self, f: &mut fmt::Formatter<W>) -> fmt::Result {
        let mut gap = "";
        for j in 0..32 {
            if contains(self.0, j) {
                write!(f, "{gap}{j}")?;
                gap = " ";
            }
        }
        if gap.is_empty() {
            write!(f, "-")?;
        }
        Ok(())
    }
}

/// The arcs of a node, by door, each with the number of its target: 0 is no arc.
#[derive(Clone, Copy)]
pub struct ArcWords(pub [u8; 16]);

impl fmt::Display for ArcWords {
    ghost use Rattle.std.specs.Prelude.{Some};
    ghost use Rattle.picture.specs.Words.{arcs_text};

    ghost output = { λ words. Some (arcs_text words.0) };

    fn fmt<W: fmt::Write>(&self, f: &mut fmt::Formatter<W>) -> fmt::Result {
        let mut gap = "";
        for (k, target) in self.0.iter().enumerate() {
            if *target != 0 {
                let door = k + 1;
                write!(f, "{gap}{door}:{target}")?;
                gap = " ";
            }
        }
        if gap.is_empty() {
            write!(f, "-")?;
        }
        Ok(())
    }
}
