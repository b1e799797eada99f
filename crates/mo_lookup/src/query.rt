//! What is asked of a catalogue: a context, a msgid, a plural and a count.

ghost use Rattle.std.specs.Prelude.{◌≡◌};
ghost use Rattle.std.specs.Option.{option_copied};
ghost use Rattle.mo_lookup.specs.Prelude.{given, has_no_separator, can_be_key, untranslated_text, untranslated_place};

use crate::place::Place;
use mo_file::{EOT, NUL, find_byte};

/// Whether a text contains neither a NUL, which ends a string of an MO file, nor an EOT (4), which
/// ends a context.
fn has_no_separator(text: &[u8]) -> bool
    ensures { result ≡ has_no_separator text.now }
{
    find_byte(NUL, text).is_none() && find_byte(EOT, text).is_none()
}

/// Whether neither the context nor the msgid contains a NUL or an EOT; where one does, the query
/// has no translation.
pub(crate) fn can_be_key(context: Option<&[u8]>, id: &[u8]) -> bool
    ensures { result ≡ can_be_key (option_copied context.entry) id.now }
{
    let context_can_be = match context {
        Some(context) => has_no_separator(context),
        None => true,
    };
    context_can_be && has_no_separator(id)
}

/// The answer where there is no translation: the msgid, or for a count that isn't 1 the plural.
pub(crate) fn untranslated_text<'q>(id: &'q [u8], plural: Option<(&'q [u8], u64)>) -> &'q [u8]
    ensures { result.now ≡ untranslated_text id.now (given plural.entry) }
{
    match plural {
        Some((plural, count)) if count != 1 => plural,
        _ => id,
    }
}

/// Where the answer is if there is no translation.
pub(crate) fn untranslated_place(plural: Option<(&[u8], u64)>) -> Place
    ensures { result ≡ untranslated_place (given plural.entry) }
{
    match plural {
        Some((_, count)) if count != 1 => Place::Plural,
        _ => Place::Id,
    }
}
