//! The numbers of fields.
ghost use Rattle.std.specs.Prelude.{◌≡◌, ◌<◌, ◌≤◌, min, true, drop, pos, neg_ℤ};
ghost use Rattle.std.specs.Str.Parse.{digits_value};
ghost use Rattle.std.specs.Str.{all_ascii_digits};
ghost use Rattle.text.specs.Number.{minus};
ghost use Rattle.text.specs.Tokens.{Formed, bytes_of, line_of, field_of};
ghost use Rattle.text.specs.Fields.{number_in, change_in};

use crate::refusal::Refusal;
use crate::token::Token;

/// Above every range, so that digits of any length fit a machine word.
const LIMIT: u32 = 10_000;

/// The number that digits write, or LIMIT if it is above that.
#[tactic(auto, using(crate::proofs::Numbers::value_step))]
fn amount(digits: &[u8]) -> u16
    requires { all_ascii_digits digits.now ≡ true }
    ensures { result ≡ min 10000 (digits_value 10 digits.now) }
{
    let mut v: u32 = 0;
    for b in digits {
        v = (v * 10 + u32::from(*b - b'0')).min(LIMIT);
    }
    v as u16
}

/// The number of a field, from low to high.
pub(crate) fn within(token: Token<'_>, low: u16, high: u16) -> Result<u16, Refusal>
    requires formed { Formed token }
    requires small { high < 10000 }
    ensures { result ≡ number_in low high (bytes_of token.entry) (line_of token.entry)
        (field_of token.entry) }
{
    match token {
        Token::Number { bytes, line, field } => {
            let v = amount(bytes);
            if (low..=high).contains(&v) {
                Ok(v)
            } else {
                Err(Refusal::OutOfRange { line, field })
            }
        }
        Token::Negative { line, field, .. }
        | Token::Dash { line, field, .. }
        | Token::Word { line, field, .. } => Err(Refusal::NotNumber { line, field }),
    }
}

/// The number of a field, from -99 to 99.
pub(crate) fn change(token: Token<'_>) -> Result<i8, Refusal>
    requires { Formed token }
    ensures { result ≡ change_in (bytes_of token.entry) (line_of token.entry)
        (field_of token.entry) }
{
    match token {
        Token::Number { bytes, line, field } => match amount(bytes) {
            v @ 0..=99 => Ok(v as i8),
            _ => Err(Refusal::OutOfRange { line, field }),
        },
        Token::Negative { bytes, line, field } => match amount(&bytes[1..]) {
            v @ 0..=99 => Ok(-(v as i8)),
            _ => Err(Refusal::OutOfRange { line, field }),
        },
        Token::Dash { line, field, .. } | Token::Word { line, field, .. } => Err(
            Refusal::NotNumber { line, field },
        ),
    }
}
