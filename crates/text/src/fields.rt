//! A line cut into its fields.
ghost use Rattle.std.specs.Prelude.{◌≡◌, ℕ, ◌-◌, ◌<◌, ◌≤◌, List, [], length, slice_index_or};
ghost use Rattle.std.specs.Borrow.{Bor};
ghost use Rattle.text.specs.Kinds.{named};
ghost use Rattle.text.specs.Pieces.{fields_in};
ghost use Rattle.text.specs.Tokens.{Formed, bytes_of, line_of, field_of};

use crate::kind::{Kind, kind_of};
use crate::token::{Token, token_of};

/// As many fields as a line may have: those of the drives to 16 doors.
const MOST: usize = 18;

/// A line of the text with its fields, in order. Those past the most are counted and not kept.
#[derive(Clone, Copy)]
pub(crate) struct Line<'a> {
    pub(crate) number: usize,
    bytes: &'a [u8],
    count: usize,
    fields: [&'a [u8]; MOST],
    ghost counted: { count ≡ length (fields_in bytes.now) },
    ghost kept: { (k : ℕ) (d : Bor (List ℕ)) → k < 18 →
        (slice_index_or fields k d).now ≡ slice_index_or (fields_in bytes.now) k [] },
}

impl<'a> Line<'a> {
    /// Cuts the line of that number at its tabs.
    pub(crate) fn new(bytes: &'a [u8], number: usize) -> Line<'a>
        ensures bytes { result.bytes ≡ bytes.entry }
        ensures number { result.number ≡ number }
    {
        let mut fields: [&'a [u8]; MOST] = [&[]; MOST];
        let mut count = 0;
        for field in bytes.split(|b| *b == b'\t') {
            if count < MOST {
                fields[count] = field;
            }
            count += 1;
        }
        Line {
            number,
            bytes,
            count,
            fields,
        }
    }

    /// How many fields the line has.
    pub(crate) fn count(&self) -> usize
        ensures { result ≡ length (fields_in self.now.bytes.now) }
    {
        self.count
    }

    /// The kind that the first field names.
    pub(crate) fn kind(&self) -> Kind
        ensures { result ≡ named (slice_index_or (fields_in self.now.bytes.now) 0 []) }
    {
        kind_of(&self.fields)
    }

    /// The token of the field of that number, from 1; where there is none, the field is empty.
    pub(crate) fn token(&self, field: usize) -> Token<'a>
        requires some { 1 ≤ field }
        requires most { field ≤ 18 }
        ensures formed { Formed result }
        ensures bytes { bytes_of result
            ≡ slice_index_or (fields_in self.now.bytes.now) (field - 1) [] }
        ensures line { line_of result ≡ self.now.number }
        ensures field { field_of result ≡ field }
    {
        token_of(self.fields[field - 1], self.number, field)
    }

    /// The bytes of the field of that number, from 1; where there is none, it is empty.
    pub(crate) fn field(&self, field: usize) -> &'a [u8]
        requires some { 1 ≤ field }
        requires most { field ≤ 18 }
        ensures { result.now ≡ slice_index_or (fields_in self.now.bytes.now) (field - 1) [] }
    {
        self.fields[field - 1]
    }

    /// The bytes of the line.
    pub(crate) fn bytes(&self) -> &'a [u8]
        ensures { result ≡ self.now.bytes }
    {
        self.bytes
    }
}
