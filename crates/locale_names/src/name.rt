//! The name of a locale, and those of the locales that stand for it.

ghost use Rattle.std.specs.Prelude.{◌≡◌, ◌<◌, ◌≤◌, Some, length, slice_get};
ghost use Rattle.std.specs.List.{position_or_len};
ghost use Rattle.memchr.specs.Find.{is_byte};
ghost use Rattle.locale_names.specs.Names as spec;
ghost use Rattle.locale_names.specs.Prelude.{text_of};

use memchr::memchr;

/// The name of a locale: `prefix`, and `rest` right after it.
#[derive(Clone, Copy, Debug)]
pub struct Candidate<'a> {
    /// What stands before the modifier, or the whole name.
    pub prefix: &'a [u8],
    /// The modifier with its `@`, or nothing.
    pub rest: &'a [u8],
}

/// How many bytes stand before the first `byte`: all, where there is none.
pub fn len_before(byte: u8, text: &[u8]) -> usize
    ensures index { result ≡ position_or_len (is_byte byte) text.now }
    ensures bound { result ≤ length text.now }
{
    memchr(byte, text).unwrap_or(text.len())
}

/// Whether the name is `C` or `POSIX`, in which the messages are the msgids.
#[tactic(auto, unfolding(crate::specs::Names::is_c_locale))]
pub(crate) fn is_c_locale(name: &[u8]) -> bool
    ensures { result ≡ spec.is_c_locale name.now }
{
    name == b"C".as_slice() || name == b"POSIX".as_slice()
}

/// Whether a name can stand in a path: it isn't empty and has no slash.
pub fn is_path_part(name: &[u8]) -> bool
    ensures { result ≡ spec.is_path_part name.now }
{
    !name.is_empty() && !name.contains(&b'/')
}

/// Whether a locale of this name has no translations: there is no name, it has a slash, or it is
/// `C` or `POSIX`.
pub fn is_untranslated(locale: &[u8]) -> bool
    ensures { result ≡ spec.is_untranslated locale.now }
{
    is_c_locale(locale) || !is_path_part(locale)
}

/// What stands before the first `byte`, or all where there is none.
#[tactic(auto, unfolding(crate::specs::Names::before))]
fn before(byte: u8, name: &[u8]) -> &[u8]
    ensures { result.now ≡ spec.before byte name.now }
{
    &name[..len_before(byte, name)]
}

/// What stands from the first `byte` on, or nothing where there is none.
#[tactic(auto, unfolding(crate::specs::Names::from_first))]
fn from_first(byte: u8, name: &[u8]) -> &[u8]
    ensures { result.now ≡ spec.from_first byte name.now }
{
    &name[len_before(byte, name)..]
}

/// One of the five candidates of a name `L[_T][.C][@M]`, the most specific first: the name itself,
/// `L[_T][@M]`, `L[@M]`, `L[_T]` and `L`. For `sr_RS.UTF-8@latin` they are `sr_RS.UTF-8@latin`,
/// `sr_RS@latin`, `sr@latin`, `sr_RS` and `sr`. Some of them may be equal.
#[tactic(auto, unfolding(crate::specs::Names::candidates_of_name))]
pub(crate) fn candidate_of_name(name: &[u8], index: u32) -> Candidate<'_>
    requires { index < 5 }
    ensures { slice_get (spec.candidates_of_name name.now) index ≡ Some (text_of result) }
{
    let modifier = from_first(b'@', name);
    let base = before(b'.', before(b'@', name));
    let language = before(b'_', base);
    match index {
        0 => Candidate {
            prefix: name,
            rest: b"",
        },
        1 => Candidate {
            prefix: base,
            rest: modifier,
        },
        2 => Candidate {
            prefix: language,
            rest: modifier,
        },
        3 => Candidate {
            prefix: base,
            rest: b"",
        },
        _ => Candidate {
            prefix: language,
            rest: b"",
        },
    }
}
