//! The text of entries, written one after the other.

ghost use Rattle.std.specs.Prelude.{◌≡◌, OnOk};
ghost use Rattle.po_writer.specs.Prelude.{with_entry};

use crate::entry_lines::push_entry;
use po_entry::EntryRef;
use std::alloc::AllocError;

/// Appends an entry, after an empty line if it isn't the first. Refused only where an allocation
/// failed; then the text may end within the entry.
pub fn push_separated(out: &mut Vec<u8>, entry: &EntryRef<'_>) -> Result<(), AllocError>
    ensures appended { OnOk result (out.new.items ≡ with_entry out.old.items entry.now) }
{
    if !out.is_empty() {
        out.push(b'\n')?;
    }
    push_entry(out, entry)
}
