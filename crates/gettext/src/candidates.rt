//! The locales whose catalogues are looked for ("Locale Environment Variables" and "Specifying a
//! Priority List of Languages" of the GNU gettext manual).
ghost use Rattle.std.specs.Prelude.{◌≡◌, ◌++◌, ◌∷◌, [], map, IfOk, OnOk, OnErr, Err};
ghost use Rattle.std.specs.Option.{option_map};
ghost use Rattle.locale_names.specs.Prelude.{text_of};
ghost use Rattle.gettext.specs.Candidates as spec;

use locale_names::{Position, is_untranslated, translated_candidate_at};
use runs::ToolFault;
use std::alloc::{AllocError, Global};
use std::collections::BTreeSet;

/// The environment variables that choose a catalogue, as bytes; an unset one is `None`.
#[derive(Clone, Copy)]
pub struct Environment<'a> {
    /// LC_ALL, which names the locale if it is set and not empty.
    pub lc_all: Option<&'a [u8]>,
    /// LC_MESSAGES, which names it if LC_ALL doesn't.
    pub lc_messages: Option<&'a [u8]>,
    /// LANG, which names it if neither does.
    pub lang: Option<&'a [u8]>,
    /// LANGUAGE: languages in order of preference, with a colon between two.
    pub language: Option<&'a [u8]>,
    /// TEXTDOMAIN: the domain of the messages.
    pub textdomain: Option<&'a [u8]>,
    /// TEXTDOMAINDIR: the folder that the catalogues lie below.
    pub textdomaindir: Option<&'a [u8]>,
}

/// The names of the locales whose catalogues are looked for, the first to be asked first, none
/// twice. There are none without a locale, in `C` and `POSIX`, and in a locale whose name has a
/// slash.
pub fn locale_candidates(
    alloc: Global,
    environment: &Environment<'_>,
) -> Result<Vec<Vec<u8>>, ToolFault>
    ensures candidates { IfOk result (λ v. map (λ name. name.items) v.items
        ≡ spec.candidates_of environment.now) }
    ensures memory { OnErr result (result ≡ Err ToolFault.OutOfMemory) }
{
    let locale = non_empty(environment.lc_all)
        .or(non_empty(environment.lc_messages))
        .or(non_empty(environment.lang))
        .unwrap_or(b"");
    let language = non_empty(environment.language).unwrap_or(b"");
    let mut names = Vec::new(alloc);
    if is_untranslated(locale) {
        return Ok(names);
    }
    let mut position = Position {
        offset: 0,
        given: 0,
    };
    while let Some((candidate, next)) = translated_candidate_at(locale, language, position) {
        let mut name = Vec::from_slice(alloc, candidate.prefix)?;
        name.extend_from_slice(candidate.rest)?;
        names.push(name)?;
        position = next;
    }
    Ok(distinct(alloc, &names)?)
}

/// The names without repeats, each where it stands first. The names seen are kept in a tree, so
/// that no choice of names makes this slow.
fn distinct(alloc: Global, names: &[Vec<u8>]) -> Result<Vec<Vec<u8>>, AllocError>
    ensures { IfOk result (λ v. map (λ name. name.items) v.items
        ≡ spec.distinct (map (λ name. name.items) names.now)) }
{
    let mut seen = BTreeSet::new(alloc);
    let mut kept = Vec::new(alloc);
    for name in names {
        if !seen.insert(name.as_slice())? {
            continue;
        }
        kept.push(name.as_slice().to_vec(alloc)?)?;
    }
    Ok(kept)
}

/// The value of a variable, where it is set and not empty.
pub(crate) fn non_empty(variable: Option<&[u8]>) -> Option<&[u8]>
    ensures { option_map (λ value. value.now) result ≡ spec.non_empty variable.entry }
{
    match variable {
        Some(value) if !value.is_empty() => Some(value),
        _ => None,
    }
}
