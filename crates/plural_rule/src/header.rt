//! The fields of a header text that make a plural rule.
ghost use Rattle.std.specs.Prelude.{◌≡◌, ◌<◌, Some, None, length, MatchOption};
ghost use Rattle.std.specs.Str.Parse.{AllDigits, digits_value};
ghost use Rattle.plural_rule.specs.Prelude.{after_first, nplurals_of, expression_of};

use crate::lexer;
use memchr::arch::all::is_suffix;
use memchr::{memchr, memchr2};

/// What follows the first `name` in a text. It looks at the places of the last byte of `name`: here
/// that is a `=`, which headers have few of.
fn after_first<'a>(text: &'a [u8], name: &[u8]) -> Option<&'a [u8]>
    requires { 0 < length name.now }
    ensures { MatchOption result (after_first name.now text.now ≡ None)
        (λ rest. after_first name.now text.now ≡ Some rest.now) }
{
    let last = name[name.len() - 1];
    let mut end = 0;
    while let Some(before) = memchr(last, &text[end..]) {
        end += before + 1;
        if is_suffix(&text[..end], name) {
            return Some(&text[end..]);
        }
    }
    None
}

/// The decimal digits of the number of plural forms, one at least: after the first `nplurals=` and
/// blanks.
pub(crate) fn nplurals_digits(header: &[u8]) -> Option<&[u8]>
    ensures { MatchOption result (nplurals_of header.now ≡ None)
        (λ digits. AllDigits 10 digits.now × (nplurals_of header.now ≡ Some (digits_value 10 digits.now))) }
{
    let Some(rest) = after_first(header, b"nplurals=") else {
        return None;
    };
    let digits = lexer::leading_digits(lexer::without_blanks(rest));
    if digits.is_empty() {
        None
    } else {
        Some(digits)
    }
}

/// The text of the expression: what follows the first `plural=`, up to the first `;` or LF, or to
/// the end.
pub(crate) fn expression(header: &[u8]) -> Option<&[u8]>
    ensures { MatchOption result (expression_of header.now ≡ None)
        (λ text. expression_of header.now ≡ Some text.now) }
{
    let Some(text) = after_first(header, b"plural=") else {
        return None;
    };
    match memchr2(b';', b'\n', text) {
        Some(end) => Some(&text[..end]),
        None => Some(text),
    }
}
