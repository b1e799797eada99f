//! What is asked of one entry.

ghost use Rattle.std.specs.Prelude.{◌≡◌};
ghost use Rattle.po_entry.specs.Prelude.{is_live_header, has_translation};

use crate::entry_ref::EntryRef;

/// Whether the entry has a translation, be it fuzzy or not: its first form isn't empty.
pub fn has_translation(entry: &EntryRef<'_>) -> bool
    ensures { result ≡ has_translation entry.now }
{
    !entry.forms().first_is_empty()
}

/// Whether the entry is a header that isn't obsolete.
pub fn is_live_header(entry: &EntryRef<'_>) -> bool
    ensures { result ≡ is_live_header entry.now }
{
    entry.is_header() && !entry.obsolete()
}
