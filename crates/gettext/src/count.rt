//! The COUNT of ngettext ("Invoking the ngettext program" of the GNU gettext manual).
ghost use Rattle.std.specs.Prelude.{◌≡◌};
ghost use Rattle.gettext.specs.Prelude.{count_in};

use std::str;

/// What a COUNT is taken as where it isn't decimal digits alone, one at least, or is 2^64 or more.
pub const OTHER_COUNT: u64 = 99;

/// The count that the argument COUNT gives: its number, or `OTHER_COUNT`.
pub fn count_of(text: &[u8]) -> u64
    ensures { result ≡ count_in text.now }
{
    match str::from_utf8(text) {
        // A sign is none of the digits.
        Ok(digits) if !text.starts_with(b"+") => digits.parse().unwrap_or(OTHER_COUNT),
        _ => OTHER_COUNT,
    }
}
