//! Selecting the entries of a text in one pass: a piece is read into a store, its entries are
//! selected, changed and written, and the store is emptied before the next one is read. Of each
//! entry the hash of its message is kept. Only where two of these are the same is the text read
//! once more, whole.

ghost use Rattle.std.specs.Prelude.{◌≡◌, ◌++◌, ◌∷◌, [], IfErr, List, MatchResult, OnOk};
ghost use Rattle.msgattrib.specs.Prelude.{ReadsText, TextEntry, selected};
ghost use Rattle.msgattrib.specs.Internal.SelectedText.{AddsParts, HaveNoDuplicate, IsSelectedText, IsSelectionFault, hashes_of};

use crate::selection::Selection;
use po_entry::{Drafts, EntryRef, Store, all_differ, message_hash};
use po_reader::{PIECE, next_store, read_into};
use po_syntax::{Pieces, PoError};
use po_writer::TextParts;
use std::alloc::{AllocError, Global};

/// Adds the hash of an entry's message, where the entry is live, or is kept and live once it is
/// changed.
fn add_hash(
    hashes: &mut Vec<u64>,
    entry: &EntryRef<'_>,
    selection: &Selection,
) -> Result<(), AllocError>
    ensures { OnOk result (hashes.new.items ≡ hashes.old.items ++ hashes_of selection.now (entry.now ∷ [])) }
{
    if !entry.obsolete() || (selection.keeps(entry) && !selection.obsolete_after(entry)) {
        hashes.push(message_hash(entry))?;
    }
    Ok(())
}

/// Adds the selected entries of a store to the parts of a text, changed, and the hashes of the
/// messages that may stand twice.
fn add_entries(
    alloc: Global,
    parts: &mut TextParts,
    hashes: &mut Vec<u64>,
    store: &mut Store,
    selection: &Selection,
) -> Result<(), AllocError>
    ensures parts { OnOk result (AddsParts (selected selection.now store.old) parts.old parts.new) }
    ensures hashes { OnOk result (hashes.new.items ≡ hashes.old.items ++ hashes_of selection.now store.old) }
{
    for index in 0..store.len() {
        let entry = store.get(index);
        add_hash(hashes, &entry, selection)?;
        if selection.keeps(&entry) {
            let changed = selection.change_at(alloc, store, index)?;
            parts.add(&store.get(changed))?;
        }
    }
    Ok(())
}

/// Looks for duplicates, first among the entries of a text, and then among those that are selected,
/// whose fault has no line.
fn check_duplicates(alloc: Global, text: &[u8], selection: &Selection) -> Result<(), PoError>
    ensures distinct { OnOk result ((entries : List TextEntry) → ReadsText text.now entries
        → HaveNoDuplicate selection.now entries) }
    ensures fault { IfErr result (IsSelectionFault selection.now text.now) }
{
    let mut drafts = Drafts::new(alloc);
    let mut store = Store::new(alloc);
    read_into(alloc, text, &mut drafts, &mut store)?;
    po_entry::check_duplicates(alloc, &store)?;
    let mut entries = Store::new(alloc);
    for index in 0..store.len() {
        let entry = store.get(index);
        if selection.keeps(&entry) {
            entries.push(&selection.changed(alloc, &entry)?)?;
        }
    }
    match po_entry::check_duplicates(alloc, &entries) {
        Ok(()) => Ok(()),
        Err(error) => Err(PoError { line: 0, ..error }),
    }
}

/// What is written of the selected entries of a text. Refused with the text's first fault; with the
/// first duplicate of the selected entries, without its line; and where an allocation failed.
pub(crate) fn selected_text(
    alloc: Global,
    text: &[u8],
    selection: &Selection,
) -> Result<Vec<u8>, PoError>
    ensures { MatchResult result (λ written. IsSelectedText selection.now text.now written.items)
        (IsSelectionFault selection.now text.now) }
{
    let mut pieces = Pieces::of(text)?;
    let mut parts = TextParts::with_capacity(alloc, text.len())?;
    let mut hashes = Vec::new(alloc);
    let mut drafts = Drafts::new(alloc);
    let mut store = Store::new(alloc);
    while !pieces.are_over() {
        next_store(alloc, &mut pieces, PIECE, true, &mut drafts, &mut store)?;
        add_entries(alloc, &mut parts, &mut hashes, &mut store, selection)?;
        store.clear();
    }
    if !all_differ(hashes) {
        check_duplicates(alloc, text, selection)?;
    }
    Ok(parts.join()?)
}
