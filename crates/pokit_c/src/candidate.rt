//! The names of the locales whose catalogues are looked for.

ghost use Rattle.std.specs.Prelude.{◌≡◌, ◌^◌, ◌-◌, ◌<◌, ◌≤◌, ◌++◌, ◌∷◌, [], ℕ, List, drop, length};
ghost use Rattle.locale_names.specs.Prelude.{candidates, names_from};

use locale_names::{Position, candidate_at};

/// The length of the candidate at a position of a locale and LANGUAGE, of which no bytes are an
/// unset one ("Specifying a Priority List of Languages"), and `position` is then that of the next
/// one; or 2^64 - 1 where there is no candidate more. The candidate is written to the beginning of
/// `name` where it fits; else `name` stays as it was. An empty candidate, which a locale without a
/// language has, has the length 0.
#[unsafe(no_mangle)]
pub extern "C" fn pokit_candidate(
    locale: &[u8],
    language: &[u8],
    position: &mut Position,
    name: &mut [u8],
) -> usize
    ensures start { position.old.offset ≡ 0 → position.old.given ≡ 0
        → names_from locale.now language.now position.old ≡ candidates locale.now language.now }
    ensures found { (text : List ℕ) (later : List (List ℕ)) → names_from locale.now language.now position.old ≡ text ∷ later
        → (result ≡ length text) × (result < 2 ^ 64 - 1) × (names_from locale.now language.now position.new ≡ later) }
    ensures text { (text : List ℕ) (later : List (List ℕ)) → names_from locale.now language.now position.old ≡ text ∷ later
        → length text ≤ length name.old → name.new ≡ text ++ drop (length text) name.old }
    ensures small { length name.old < result → name.new ≡ name.old }
    ensures end { names_from locale.now language.now position.old ≡ []
        → (result ≡ 2 ^ 64 - 1) × (name.new ≡ name.old) × (position.new ≡ position.old) }
{
    let Some((candidate, next)) = candidate_at(locale, language, *position) else {
        return usize::MAX;
    };
    *position = next;
    let prefix_len = candidate.prefix.len();
    let len = prefix_len + candidate.rest.len();
    if len <= name.len() {
        name[..prefix_len].copy_from_slice(candidate.prefix);
        name[prefix_len..len].copy_from_slice(candidate.rest);
    }
    len
}
