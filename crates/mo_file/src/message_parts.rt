//! The parts of originals and translations, which end at a NUL or an EOT ("The Format of GNU MO
//! Files").

ghost use Rattle.std.specs.Prelude.{◌≡◌, ◌<◌, [], ◌∷◌, IfSome, MatchOption, length, slice_index_or, take};
ghost use Rattle.std.specs.Option.{option_copied};
ghost use Rattle.mo_file.specs.Prelude.{IsCut, key_of, context_of, forms, id_of, plural_of};

use crate::common_prefix::find_byte;

/// The byte that ends a string of a file. It stands between a key and a plural too, and between the
/// forms of a translation.
pub const NUL: u8 = 0;

/// The byte that stands between a context and a msgid.
pub const EOT: u8 = 4;

/// What stands before the first of these bytes and what after it, where there is one.
fn split_once_at(byte: u8, text: &[u8]) -> Option<(&[u8], &[u8])>
    ensures { IsCut byte text.now result }
{
    let place = find_byte(byte, text)?;
    Some((&text[..place], &text[place + 1..]))
}

/// The context of a key, where it has one, and its msgid.
pub fn key_parts(key: &[u8]) -> (Option<&[u8]>, &[u8])
    ensures context { option_copied result.0 ≡ context_of key.now }
    ensures id { result.1.now ≡ id_of key.now }
{
    match split_once_at(EOT, key) {
        Some((context, id)) => (Some(context), id),
        None => (None, key),
    }
}

/// The key of an original and the plural, where it has one.
pub fn original_parts(original: &[u8]) -> (&[u8], Option<&[u8]>)
    ensures key { result.0.now ≡ key_of original.now }
    ensures plural { option_copied result.1 ≡ plural_of original.now }
{
    match split_once_at(NUL, original) {
        Some((key, rest)) => (key, Some(first_part(rest))),
        None => (original, None),
    }
}

/// What stands before the first NUL, or all: the first form of a translation.
pub fn first_part(text: &[u8]) -> &[u8]
    ensures part { take 1 (forms text.now) ≡ result.now ∷ [] }
    ensures first { result.now ≡ slice_index_or (forms text.now) 0 [] }
{
    match split_once_at(NUL, text) {
        Some((piece, _)) => piece,
        None => text,
    }
}

/// The first form of a translation and what is after its NUL, where it has further forms.
pub fn split_form(translation: &[u8]) -> Option<(&[u8], &[u8])>
    ensures forms { MatchOption result (forms translation.now ≡ translation.now ∷ [])
        (λ parts. forms translation.now ≡ parts.0.now ∷ forms parts.1.now) }
    ensures shorter { IfSome result (λ parts. length parts.1.now < length translation.now) }
{
    split_once_at(NUL, translation)
}
