//! What is found where a text is at fault.
ghost use Rattle.std.specs.Prelude.{◌≡◌, take};

use std::fmt;
use text::fault::Found;

/// So many bytes of what is found are shown.
const SHOWN: usize = 40;

/// A count of fields.
#[derive(Clone, Copy)]
pub(crate) struct CountWords(pub(crate) usize);

impl fmt::Display for CountWords {
    ghost use Rattle.std.specs.Prelude.{Some};
    ghost use Rattle.advice.specs.Found.{count_text};

    ghost output = { λ words. Some (count_text words.0) };

    fn fmt<W: fmt::Write>(&self, f: &mut fmt::Formatter<W>) -> fmt::Result {
        match self.0 {
            1 => write!(f, "1 field"),
            count => write!(f, "{count} fields"),
        }
    }
}

/// A byte by its two digits in base 16.
#[derive(Clone, Copy)]
struct HexText(u8);

impl fmt::Display for HexText {
    ghost use Rattle.std.specs.Prelude.{Some};
    ghost use Rattle.advice.specs.Found.{hex_text};

    ghost output = { λ byte. Some (hex_text byte.0) };

    fn fmt<W: fmt::Write>(&self, f: &mut fmt::Formatter<W>) -> fmt::Result {
        let (high, low) = (self.0 / 16, self.0 % 16);
        write!(f, "\\x{high:x}{low:x}")
    }
}

/// A byte: printable ASCII as it is, all else escaped.
#[derive(Clone, Copy)]
struct ByteText(u8);

impl fmt::Display for ByteText {
    ghost use Rattle.std.specs.Prelude.{Some};
    ghost use Rattle.advice.specs.Found.{byte_text};

    ghost output = { λ byte. Some (byte_text byte.0) };

    fn fmt<W: fmt::Write>(&self, f: &mut fmt::Formatter<W>) -> fmt::Result {
        match self.0 {
            b'\t' => write!(f, "\\t"),
            b'\n' => write!(f, "\\n"),
            b'\r' => write!(f, "\\r"),
            b'"' => write!(f, "\\\""),
            b'\\' => write!(f, "\\\\"),
            byte @ b' '..=b'~' => {
                let char = char::from(byte);
                write!(f, "{char}")
            }
            byte => HexText(byte).fmt(f),
        }
    }
}

/// These bytes.
#[derive(Clone, Copy)]
struct BytesText<'a>(&'a [u8]);

impl fmt::Display for BytesText<'_> {
    ghost use Rattle.std.specs.Prelude.{Some};
    ghost use Rattle.advice.specs.Found.{bytes_text};

    ghost output = { λ bytes. Some (bytes_text bytes.0.now) };

    fn fmt<W: fmt::Write>(&self, f: &mut fmt::Formatter<W>) -> fmt::Result {
        for byte in self.0 {
            let byte = ByteText(*byte);
            write!(f, "{byte}")?;
        }
        Ok(())
    }
}

/// How many bytes more there are.
#[derive(Clone, Copy)]
struct MoreWords(usize);

impl fmt::Display for MoreWords {
    ghost use Rattle.std.specs.Prelude.{Some};
    ghost use Rattle.advice.specs.Found.{more_text};

    ghost output = { λ words. Some (more_text words.0) };

    fn fmt<W: fmt::Write>(&self, f: &mut fmt::Formatter<W>) -> fmt::Result {
        match self.0 {
            0 => Ok(()),
            1 => write!(f, " and 1 byte more"),
            count => write!(f, " and {count} bytes more"),
        }
    }
}

/// The bytes that are shown.
#[tactic(auto, using(std::proofs::lemmas::List::take_min))]
fn shown(bytes: &[u8]) -> &[u8]
    ensures { result.now ≡ take 40 bytes.now }
{
    &bytes[..SHOWN.min(bytes.len())]
}

/// Bytes between double quotes, of more than 40 the first 40 alone.
#[derive(Clone, Copy)]
struct Quoted<'a>(&'a [u8]);

impl fmt::Display for Quoted<'_> {
    ghost use Rattle.std.specs.Prelude.{Some};
    ghost use Rattle.advice.specs.Found.{quoted_text};

    ghost output = { λ quoted. Some (quoted_text quoted.0.now) };

    fn fmt<W: fmt::Write>(&self, f: &mut fmt::Formatter<W>) -> fmt::Result {
        let bytes = BytesText(shown(self.0));
        let more = MoreWords(self.0.len().saturating_sub(SHOWN));
        write!(f, "\"{bytes}\"{more}")
    }
}

/// What is found.
#[derive(Clone, Copy)]
pub(crate) struct FoundWords<'a>(pub(crate) Found<'a>);

impl fmt::Display for FoundWords<'_> {
    ghost use Rattle.std.specs.Prelude.{Some};
    ghost use Rattle.advice.specs.Found.{found_text};

    ghost output = { λ words. Some (found_text words.0) };

    fn fmt<W: fmt::Write>(&self, f: &mut fmt::Formatter<W>) -> fmt::Result {
        match self.0 {
            Found::Field(bytes) => Quoted(bytes).fmt(f),
            Found::Fields(count) => CountWords(count).fmt(f),
            Found::End => write!(f, "the end of the text"),
            Found::Unended(bytes) => {
                let line = Quoted(bytes);
                write!(f, "{line}, with no line feed behind it")
            }
            Found::Longer => write!(f, "more than 16384 bytes"),
        }
    }
}
