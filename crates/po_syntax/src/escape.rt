//! An escape within a quoted string.

ghost use Rattle.std.specs.Prelude.{◌≡◌, ◌^◌, ◌<◌, ◌≤◌, length, All, SomeIff};
ghost use Rattle.std.specs.Char.{digit_value};
ghost use Rattle.std.specs.Str.Parse.{digits_value};
ghost use Rattle.po_syntax.specs.Internal.{IsByteOf, digit_count, escape_at, number_step};

use crate::fault::PoFault;

/// How many digits of a base the text begins with.
pub(crate) fn digit_count(base: u32, text: &[u8]) -> usize
    requires least { 2 ≤ base }
    requires most { base ≤ 36 }
    ensures count { result ≡ digit_count base text.now }
    ensures within { result ≤ length text.now }
{
    text.iter()
        .take_while(|b| (**b as char).is_digit(base))
        .count()
}

/// The number that these digits of the base stand for; none from 2^32 on.
pub(crate) fn number_of(base: u32, digits: &[u8]) -> Option<u32>
    requires least { 2 ≤ base }
    requires most { base ≤ 36 }
    requires digits { All (λ b. digit_value b < base) digits.now }
    ensures { SomeIff result (digits_value base digits.now < 2 ^ 32) (digits_value base digits.now) }
{
    let mut number: u32 = 0;
    for digit in digits {
        let digit = (*digit as char).to_digit(base)?;
        number = number.checked_mul(base)?.checked_add(digit)?;
    }
    Some(number)
}

/// The byte whose number the first `count` bytes of the text stand for, which are digits of the
/// base. Refused with `ForbiddenByte` for 0, and with `BadEscape` above 255.
#[tactic(auto, using(crate::proofs::Keywords::digits_all, crate::proofs::Keywords::digits_within))]
fn numbered_byte(base: u32, count: usize, text: &[u8]) -> Result<(u8, &[u8]), PoFault>
    requires least { 2 ≤ base }
    requires most { base ≤ 36 }
    requires digits { count ≤ digit_count base text.now }
    ensures { IsByteOf (number_step base count text.now) result }
{
    let (digits, rest) = text.split_at(count);
    match number_of(base, digits) {
        Some(0) => Err(PoFault::ForbiddenByte),
        Some(number) if number < 256 => Ok((number as u8, rest)),
        _ => Err(PoFault::BadEscape),
    }
}

/// The byte that an escape stands for, read after its backslash, and the text after it.
#[tactic(auto, unfolding(crate::specs::Internal::escape_at))]
pub(crate) fn escape(text: &[u8]) -> Result<(u8, &[u8]), PoFault>
    ensures { IsByteOf (escape_at text.now) result }
{
    let Some((first, rest)) = text.split_first() else {
        return Err(PoFault::BadEscape);
    };
    if (*first as char).is_digit(8) {
        let most = text.len().min(3);
        return numbered_byte(8, digit_count(8, &text[..most]), text);
    }
    if *first == b'x' {
        let count = digit_count(16, rest);
        if count == 0 {
            return Err(PoFault::BadEscape);
        }
        return numbered_byte(16, count, rest);
    }
    let byte = match *first {
        b'a' => 7,
        b'b' => 8,
        b'f' => 12,
        b'n' => b'\n',
        b'r' => b'\r',
        b't' => b'\t',
        b'v' => 11,
        b'\\' => b'\\',
        b'"' => b'"',
        _ => return Err(PoFault::BadEscape),
    };
    Ok((byte, rest))
}
