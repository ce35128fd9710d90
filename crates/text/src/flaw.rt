//! What the bytes of a field show of why it cannot be read.
ghost use Rattle.std.specs.Prelude.{◌≡◌, length, nat_eq};
ghost use Rattle.std.specs.List.{list_any};
ghost use Rattle.std.specs.Char.{is_ascii_uppercase};
ghost use Rattle.text.specs.Flaws.{is_wide, is_beyond_ascii, has_leading_zero, has_sign, flaw_in, word_flaw, change_flaw, line_flaw, end_flaw};
ghost use Rattle.text.specs.Pieces.{fields_in};

/// What makes a field unreadable, as far as its bytes show it.
#[derive(Clone, Copy, Debug, PartialEq, Eq)]
pub enum Flaw {
    /// the mark of UTF-8 at the start, which editors put ahead of a text
    ByteOrderMark,
    /// the mark of UTF-16 at the start, or a byte 0, as UTF-16 has one in each letter
    Utf16,
    CarriageReturn,
    /// a blank
    Blank,
    /// a byte of a letter or sign that is no ASCII
    NotAscii,
    /// a field with nothing in it
    Empty,
    /// a 0 ahead of a digit
    LeadingZero,
    /// a plus or a minus ahead of what else stands there
    Sign,
    /// a point or a comma
    Point,
    /// a capital letter
    Capital,
}

/// Whether the bytes look like UTF-16.
fn is_wide(bytes: &[u8]) -> bool
    ensures { result ≡ is_wide bytes.now }
{
    bytes.starts_with(b"\xff\xfe") || bytes.starts_with(b"\xfe\xff") || bytes.contains(&0)
}

/// Whether some byte is no ASCII.
fn is_beyond_ascii(bytes: &[u8]) -> bool
    ensures { result ≡ list_any is_beyond_ascii bytes.now }
{
    bytes.iter().any(|b| *b >= 128)
}

/// The flaw that a field's bytes show, the first in the order of the cases.
pub(crate) fn flaw_in(bytes: &[u8]) -> Option<Flaw>
    ensures { result ≡ flaw_in bytes.now }
{
    if bytes.starts_with(b"\xef\xbb\xbf") {
        Some(Flaw::ByteOrderMark)
    } else if is_wide(bytes) {
        Some(Flaw::Utf16)
    } else if bytes.contains(&b'\r') {
        Some(Flaw::CarriageReturn)
    } else if bytes.contains(&b' ') {
        Some(Flaw::Blank)
    } else if is_beyond_ascii(bytes) {
        Some(Flaw::NotAscii)
    } else {
        flaw_in_word(bytes)
    }
}

/// Whether the bytes begin with a 0 and another digit.
fn has_leading_zero(bytes: &[u8]) -> bool
    ensures { result ≡ has_leading_zero bytes.now }
{
    matches!(bytes, [b'0', b'0'..=b'9', ..])
}

/// Whether the bytes begin with a sign, and something stands behind it.
fn has_sign(bytes: &[u8]) -> bool
    ensures { result ≡ has_sign bytes.now }
{
    matches!(bytes, [b'+' | b'-', _, ..])
}

/// Whether a capital letter is one of the bytes.
fn has_capital(bytes: &[u8]) -> bool
    ensures { result ≡ list_any is_ascii_uppercase bytes.now }
{
    bytes.iter().any(u8::is_ascii_uppercase)
}

/// The same, where none of the first five is there.
fn flaw_in_word(bytes: &[u8]) -> Option<Flaw>
    ensures { result ≡ word_flaw bytes.now }
{
    if bytes.is_empty() {
        Some(Flaw::Empty)
    } else if has_leading_zero(bytes) {
        Some(Flaw::LeadingZero)
    } else if has_sign(bytes) {
        Some(Flaw::Sign)
    } else if bytes.contains(&b'.') || bytes.contains(&b',') {
        Some(Flaw::Point)
    } else if has_capital(bytes) {
        Some(Flaw::Capital)
    } else {
        None
    }
}

/// The flaw of a field where a change is due, which may begin with a minus.
pub(crate) fn flaw_in_change(bytes: &[u8]) -> Option<Flaw>
    ensures { result ≡ change_flaw bytes.now }
{
    match bytes {
        [b'-'] => None,
        [b'-', rest @ ..] => flaw_in(rest),
        _ => flaw_in(bytes),
    }
}

/// Whether some field of the line has nothing in it.
fn has_empty_field(line: &[u8]) -> bool
    ensures { result ≡ list_any (λ f. nat_eq (length f) 0) (fields_in line.now) }
{
    line.split(|b| *b == b'\t').any(|field| field.is_empty())
}

/// The flaw of a line with a wrong count of fields.
pub(crate) fn flaw_in_line(line: &[u8]) -> Option<Flaw>
    ensures { result ≡ line_flaw line.now }
{
    if line.contains(&b'\r') {
        Some(Flaw::CarriageReturn)
    } else if line.contains(&b' ') {
        Some(Flaw::Blank)
    } else if has_empty_field(line) {
        Some(Flaw::Empty)
    } else {
        None
    }
}

/// The flaw of a line that no line feed ends.
pub(crate) fn flaw_at_end(line: &[u8]) -> Option<Flaw>
    ensures { result ≡ end_flaw line.now }
{
    match flaw_in(line) {
        flaw @ Some(Flaw::ByteOrderMark | Flaw::Utf16 | Flaw::CarriageReturn) => flaw,
        _ => None,
    }
}
