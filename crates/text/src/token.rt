//! A field of the text by its form, with its place.
ghost use Rattle.std.specs.Prelude.{◌≡◌};
ghost use Rattle.std.specs.Str.{all_ascii_digits};
ghost use Rattle.text.specs.Number.{plain, positive, minus};
ghost use Rattle.text.specs.Tokens.{Formed, bytes_of, line_of, field_of};

#[derive(Clone, Copy)]
pub(crate) enum Token<'a> {
    Number {
        bytes: &'a [u8],
        line: usize,
        field: usize,
    },
    /// a minus and a number other than 0
    Negative {
        bytes: &'a [u8],
        line: usize,
        field: usize,
    },
    /// a minus alone
    Dash {
        bytes: &'a [u8],
        line: usize,
        field: usize,
    },
    Word {
        bytes: &'a [u8],
        line: usize,
        field: usize,
    },
}

/// Whether the bytes are digits, the first not 0.
fn is_positive(bytes: &[u8]) -> bool
    ensures { result ≡ positive bytes.now }
{
    match bytes {
        [b'1'..=b'9', rest @ ..] => rest.iter().all(u8::is_ascii_digit),
        _ => false,
    }
}

/// Whether the bytes are digits with no leading zero.
fn is_plain(bytes: &[u8]) -> bool
    ensures { result ≡ plain bytes.now }
{
    matches!(bytes, b"0") || is_positive(bytes)
}

/// Whether the bytes are a minus and a number other than 0.
fn is_negative(bytes: &[u8]) -> bool
    ensures { result ≡ minus bytes.now }
{
    match bytes {
        [b'-', rest @ ..] => is_positive(rest),
        _ => false,
    }
}

/// The token of a field, whose case is the form of its bytes.
pub(crate) fn token_of<'a>(bytes: &'a [u8], line: usize, field: usize) -> Token<'a>
    ensures formed { Formed result }
    ensures bytes { bytes_of result ≡ bytes.now }
    ensures line { line_of result ≡ line }
    ensures field { field_of result ≡ field }
{
    if matches!(bytes, b"-") {
        Token::Dash { bytes, line, field }
    } else if is_negative(bytes) {
        Token::Negative { bytes, line, field }
    } else if is_plain(bytes) {
        Token::Number { bytes, line, field }
    } else {
        Token::Word { bytes, line, field }
    }
}
