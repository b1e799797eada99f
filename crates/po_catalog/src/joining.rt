//! The entries of several catalogues as one list, with the header of the first.

ghost use Rattle.std.specs.Prelude.{◌≡◌, ◌++◌, ◌<◌, ◌^◌, length, map, All, OnOk, IfOk};
ghost use Rattle.po_catalog.specs.Prelude.{IsCatalogueEntry, entries_of, in_input, input_entries, is_live, is_live_header, joined, joined_entries, kept_entries};

use crate::catalogue::Catalogue;
use crate::entry::Entry;
use crate::stores::push_entry;
use po_entry::Store;
use std::alloc::{AllocError, Global};

/// An entry of one of several inputs.
#[derive(Clone, Copy)]
pub struct InputEntry<'a> {
    /// The input, counted from 0.
    pub input: u32,
    /// The entry, in the catalogue of that input.
    pub entry: &'a Entry,
}

/// The entries of several inputs in order, without the live headers of an input where an earlier
/// input has a live header.
pub fn joined(alloc: Global, catalogues: &[Catalogue]) -> Result<Vec<InputEntry<'_>>, AllocError>
    requires { length catalogues.now < 2 ^ 32 }
    ensures list { IfOk result (λ entries. input_entries entries.items ≡ joined catalogues.now) }
    ensures valid { OnOk result (All IsCatalogueEntry (joined_entries catalogues.now)) }
{
    let mut joined = Vec::new(alloc);
    let mut headed = false;
    for (input, catalogue) in catalogues.iter().enumerate() {
        let entries = catalogue.entries();
        add_entries(&mut joined, entries, input as u32, headed)?;
        headed |= entries.iter().any(|entry| is_live_header(entry));
    }
    Ok(joined)
}

/// Adds the entries of an input, without its live headers where an earlier input has one.
fn add_entries<'a>(
    joined: &mut Vec<InputEntry<'a>>,
    entries: &'a [Entry],
    input: u32,
    headed: bool,
) -> Result<(), AllocError>
    ensures { OnOk result (input_entries joined.new.items
        ≡ input_entries joined.old.items ++ map (in_input input) (kept_entries headed entries.now)) }
{
    for entry in entries {
        if !(headed && is_live_header(entry)) {
            joined.push(InputEntry { input, entry })?;
        }
    }
    Ok(())
}

/// A store of a copy of each entry; refused only where an allocation failed.
pub(crate) fn joined_store(alloc: Global, entries: &[InputEntry<'_>]) -> Result<Store, AllocError>
    requires { All IsCatalogueEntry (entries_of (input_entries entries.now)) }
    ensures { IfOk result (λ store. store ≡ entries_of (input_entries entries.now)) }
{
    let mut store = Store::new(alloc);
    for member in entries {
        push_entry(&mut store, alloc, member.entry)?;
    }
    Ok(store)
}

/// Whether the entry is a header that isn't obsolete.
pub fn is_live_header(entry: &Entry) -> bool
    ensures { result ≡ is_live_header entry.now }
{
    entry.is_header() && is_live(entry)
}

/// Whether the entry isn't obsolete.
pub fn is_live(entry: &Entry) -> bool
    ensures { result ≡ is_live entry.now }
{
    !entry.obsolete()
}
