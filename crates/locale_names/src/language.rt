//! The parts of LANGUAGE: languages in order of preference, with a colon between two.

ghost use Rattle.std.specs.Prelude.{◌≡◌, ◌<◌, ◌≤◌, [], ◌∷◌, drop, length, IfSome, MatchOption, if◌then◌else◌};
ghost use Rattle.locale_names.specs.Prelude.{is_c_locale, is_path_part, language_parts};

use crate::name::{is_c_locale, is_path_part, len_before};

/// What stands before the first colon, and how many bytes it has with the colon.
fn first_part(languages: &[u8]) -> (&[u8], usize)
    requires { 0 < length languages.now }
    ensures parts { language_parts languages.now ≡ (if is_c_locale result.0.now then []
        else (if is_path_part result.0.now then result.0.now ∷ language_parts (drop result.1 languages.now)
        else language_parts (drop result.1 languages.now))) }
    ensures passed { (0 < result.1) × (result.1 ≤ length languages.now) }
{
    let end = len_before(b':', languages);
    if end == languages.len() {
        return (languages, end);
    }
    (&languages[..end], end + 1)
}

/// The first part of LANGUAGE that counts, and how many bytes there are up to its end, with the
/// colon after it. Parts that are empty or have a slash don't count, and neither does what stands
/// from the first part `C` or `POSIX` on.
pub(crate) fn next_language(languages: &[u8]) -> Option<(&[u8], usize)>
    ensures parts { MatchOption result (language_parts languages.now ≡ [])
        (λ next. language_parts languages.now ≡ next.0.now ∷ language_parts (drop next.1 languages.now)) }
    ensures passed { IfSome result (λ next. next.1 ≤ length languages.now) }
{
    let mut at = 0;
    while at < languages.len() {
        let (part, len) = first_part(&languages[at..]);
        at += len;
        if is_c_locale(part) {
            return None;
        }
        if is_path_part(part) {
            return Some((part, at));
        }
    }
    None
}
