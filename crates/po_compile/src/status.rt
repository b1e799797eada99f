//! Whether an entry is compiled, and what the statistics ask of it.

ghost use Rattle.std.specs.Prelude.{◌≡◌};
ghost use Rattle.po_compile.specs.Prelude.{status_of};

use po_entry::{EntryRef, has_translation};

/// Whether a live entry is compiled, and what the statistics ask of it.
#[derive(Clone, Copy)]
pub(crate) struct Status {
    pub(crate) compiled: bool,
    pub(crate) counted: bool,
    pub(crate) translated: bool,
    pub(crate) fuzzy: bool,
}

/// Whether an entry is compiled, and what the statistics ask of it. It is compiled where it is live
/// and translated, and not fuzzy, unless fuzzy entries are compiled too. A header's flag `fuzzy` is
/// ignored.
pub(crate) fn status_of(entry: &EntryRef<'_>, use_fuzzy: bool) -> Status
    ensures { result ≡ status_of use_fuzzy entry.now }
{
    let is_live = !entry.obsolete();
    let is_header = entry.is_header();
    let translated = has_translation(entry);
    let fuzzy = entry.fuzzy();
    Status {
        compiled: is_live && translated && (use_fuzzy || !fuzzy || is_header),
        counted: is_live && !is_header,
        translated,
        fuzzy,
    }
}
