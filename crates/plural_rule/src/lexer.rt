//! The tokens of an expression's text, and the numerals and blanks of a header text.
ghost use Rattle.std.specs.Prelude.{◌≡◌, ◌^◌, ◌<◌, ◌≤◌, [], ◌∷◌, length, take_while, MatchOption, SomeIff, false};
ghost use Rattle.std.specs.Str.Parse.{AllDigits, digits_value};
ghost use Rattle.std.specs.Char.{is_ascii_digit};
ghost use Rattle.plural_rule.specs.Prelude.{IsSpelling, without_blanks};
ghost use Rattle.plural_rule.specs.Internal.Lexer.{IsTokenAt, HasNoToken, BeginsWithDouble, HasNoDouble};

use crate::operator::Operator;
use crate::token::Token;

/// The text without the spaces and TABs at its beginning.
pub(crate) fn without_blanks(text: &[u8]) -> &[u8]
    ensures value { result.now ≡ without_blanks text.now }
    ensures shorter { length result.now ≤ length text.now }
{
    for (index, byte) in text.iter().enumerate() {
        if *byte != b' ' && *byte != b'\t' {
            return &text[index..];
        }
    }
    &text[text.len()..]
}

/// The decimal digits at the beginning of the text.
pub(crate) fn leading_digits(text: &[u8]) -> &[u8]
    ensures { result.now ≡ take_while is_ascii_digit text.now }
{
    for (index, byte) in text.iter().enumerate() {
        if !byte.is_ascii_digit() {
            return &text[..index];
        }
    }
    text
}

/// The number that decimal digits spell, or `None` where it is 2^64 or more.
pub(crate) fn decimal_value(digits: &[u8]) -> Option<u64>
    requires { AllDigits 10 digits.now }
    ensures { SomeIff result (digits_value 10 digits.now < 2 ^ 64) (digits_value 10 digits.now) }
{
    let mut value = 0;
    for digit in digits {
        let longer = value as u128 * 10 + (*digit - b'0') as u128;
        if longer > u64::MAX as u128 {
            return None;
        }
        value = longer as u64;
    }
    Some(value)
}

/// The token at the beginning of a text, the longest that fits, and how many bytes it has.
///
/// `None` where no token begins the text, or only a numeral of 2^64 or more.
#[inline(always)]
pub(crate) fn token(text: &[u8]) -> Option<(Token, usize)>
    requires { 0 < length text.now }
    ensures { MatchOption result (HasNoToken text.now) (λ r. IsTokenAt text.now r.0 r.1) }
{
    let first = text[0];
    if first.is_ascii_digit() {
        let digits = leading_digits(text);
        return match decimal_value(digits) {
            Some(value) => Some((Token::Number(value), digits.len())),
            None => None,
        };
    }
    if let Some(operator) = double_at(text) {
        return Some((Token::Binary(operator), 2));
    }
    match single(first) {
        Some(token) => Some((token, 1)),
        None => None,
    }
}

/// The operator that the first two bytes of a text spell.
#[inline(always)]
fn double_at(text: &[u8]) -> Option<Operator>
    ensures { MatchOption result (HasNoDouble text.now) (λ op. BeginsWithDouble text.now op) }
{
    if text.len() < 2 {
        return None;
    }
    let first = text[0];
    if text[1] == b'=' {
        return match first {
            b'=' => Some(Operator::Equal),
            b'!' => Some(Operator::NotEqual),
            b'<' => Some(Operator::AtMost),
            b'>' => Some(Operator::AtLeast),
            _ => None,
        };
    }
    match first {
        _ if text[1] != first => None,
        b'|' => Some(Operator::Or),
        b'&' => Some(Operator::And),
        _ => None,
    }
}

/// The token that one byte spells, which isn't a digit.
#[inline(always)]
fn single(byte: u8) -> Option<Token>
    requires { is_ascii_digit byte ≡ false }
    ensures { MatchOption result ((t : Token) → IsSpelling t (byte ∷ []) → ⊥) (λ t. IsSpelling t (byte ∷ [])) }
{
    match byte {
        b'n' => Some(Token::Count),
        b'!' => Some(Token::Not),
        b'?' => Some(Token::Question),
        b':' => Some(Token::Colon),
        b'(' => Some(Token::Open),
        b')' => Some(Token::Close),
        b'<' => Some(Token::Binary(Operator::Less)),
        b'>' => Some(Token::Binary(Operator::Greater)),
        b'+' => Some(Token::Binary(Operator::Add)),
        b'-' => Some(Token::Binary(Operator::Subtract)),
        b'*' => Some(Token::Binary(Operator::Multiply)),
        b'/' => Some(Token::Binary(Operator::Divide)),
        b'%' => Some(Token::Binary(Operator::Remainder)),
        _ => None,
    }
}
