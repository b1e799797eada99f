//! The names of the locales whose catalogues are looked for, in order, by their positions.

ghost use Rattle.std.specs.Prelude.{◌≡◌, [], ◌∷◌, drop, false, MatchOption};
ghost use Rattle.locale_names.specs.Prelude.{candidates, is_untranslated, language_parts, names_from, names_left, text_of};

use crate::language::next_language;
use crate::name::{Candidate, candidate_of_name, is_untranslated};

/// Where a walk over the candidates of a locale and LANGUAGE is. All zeros are its beginning.
#[repr(C)]
#[derive(Clone, Copy, Debug)]
pub struct Position {
    /// How many bytes of LANGUAGE it has passed.
    pub offset: usize,
    /// How many candidates of the next language were given.
    pub given: u32,
}

/// The candidate of LANGUAGE at a position, where there is one, and the position after it.
fn of_language(language: &[u8], position: Position) -> Option<(Candidate<'_>, Position)>
    ensures { MatchOption result (names_left position.given (language_parts (drop position.offset language.now)) ≡ [])
        (λ next. names_left position.given (language_parts (drop position.offset language.now))
        ≡ text_of next.0 ∷ names_left next.1.given (language_parts (drop next.1.offset language.now))) }
{
    if position.offset > language.len() {
        return None;
    }
    let Some((name, len)) = next_language(&language[position.offset..]) else {
        return None;
    };
    if position.given < 5 {
        let next = Position {
            offset: position.offset,
            given: position.given + 1,
        };
        return Some((candidate_of_name(name, position.given), next));
    }
    let offset = position.offset + len;
    let Some((name, _)) = next_language(&language[offset..]) else {
        return None;
    };
    Some((candidate_of_name(name, 0), Position { offset, given: 1 }))
}

/// The candidate at a position, where there is one, and the position after it. The candidates are
/// those of LANGUAGE, or where it is empty those of the locale. There are none without a locale, in
/// `C` and `POSIX`, and in a locale whose name has a slash. Names may come more than once.
pub fn candidate_at<'a>(
    locale: &'a [u8],
    language: &'a [u8],
    position: Position,
) -> Option<(Candidate<'a>, Position)>
    ensures start { position.offset ≡ 0 → position.given ≡ 0
        → names_from locale.now language.now position ≡ candidates locale.now language.now }
    ensures next { MatchOption result (names_from locale.now language.now position ≡ [])
        (λ next. names_from locale.now language.now position
        ≡ text_of next.0 ∷ names_from locale.now language.now next.1) }
{
    if is_untranslated(locale) {
        return None;
    }
    translated_candidate_at(locale, language, position)
}

/// The candidate at a position, as `candidate_at` gives it, in a locale that has translations. The
/// locale isn't looked through for that again.
pub fn translated_candidate_at<'a>(
    locale: &'a [u8],
    language: &'a [u8],
    position: Position,
) -> Option<(Candidate<'a>, Position)>
    requires { is_untranslated locale.now ≡ false }
    ensures start { position.offset ≡ 0 → position.given ≡ 0
        → names_from locale.now language.now position ≡ candidates locale.now language.now }
    ensures next { MatchOption result (names_from locale.now language.now position ≡ [])
        (λ next. names_from locale.now language.now position
        ≡ text_of next.0 ∷ names_from locale.now language.now next.1) }
{
    if !language.is_empty() {
        return of_language(language, position);
    }
    if position.given >= 5 {
        return None;
    }
    let next = Position {
        offset: position.offset,
        given: position.given + 1,
    };
    Some((candidate_of_name(locale, position.given), next))
}
