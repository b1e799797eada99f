//! Catalogues and stores, each made of a copy of the other's entries.

ghost use Rattle.std.specs.Prelude.{◌≡◌, ◌++◌, ◌∷◌, [], All, IfOk, OnErr, OnOk};
ghost use Rattle.po_catalog.specs.Prelude.{IsCatalogueEntry, IsEntry, entry_view, texts_left};

use crate::catalogue::Catalogue;
use crate::entry::Entry;
use crate::text_list::{TextList, copy_texts};
use po_entry::{EntryRef, Fields, Store, TextListIter, copy_optional};
use std::alloc::{AllocError, Global};

/// A copy of the texts in one buffer.
fn buffer_of(alloc: Global, list: &TextList) -> Result<po_entry::TextList, AllocError>
    ensures { IfOk result (λ copy. copy ≡ list.now) }
{
    let mut copy = po_entry::TextList::new(alloc);
    for text in list.texts() {
        copy.push(text)?;
    }
    Ok(copy)
}

/// A copy of each part of the entry; refused only where an allocation failed.
fn fields_of(alloc: Global, entry: &Entry) -> Result<Fields, AllocError>
    ensures { IfOk result (λ fields. entry_view fields ≡ entry.now) }
{
    Ok(Fields {
        comments: buffer_of(alloc, entry.comments())?,
        extracted: buffer_of(alloc, entry.extracted())?,
        references: buffer_of(alloc, entry.references())?,
        fuzzy: entry.fuzzy(),
        flags: buffer_of(alloc, entry.flags())?,
        previous: entry.previous().copy(alloc)?,
        context: copy_optional(alloc, entry.context())?,
        id: entry.id().to_vec(alloc)?,
        plural: copy_optional(alloc, entry.plural())?,
        forms: copy_texts(alloc, entry.forms())?,
        obsolete: entry.obsolete(),
        line: entry.line(),
    })
}

/// Adds a copy of the entry. Where an allocation failed, the entries are those that were there.
pub fn push_entry(store: &mut Store, alloc: Global, entry: &Entry) -> Result<(), AllocError>
    requires { IsCatalogueEntry entry.now }
    ensures ok { OnOk result (store.new ≡ store.old ++ entry.now ∷ []) }
    ensures unchanged { OnErr result (store.new ≡ store.old) }
{
    let fields = fields_of(alloc, entry)?;
    store.push(&fields)
}

/// A store of a copy of each entry; refused only where an allocation failed.
pub fn store_of(alloc: Global, entries: &[Entry]) -> Result<Store, AllocError>
    requires { All IsCatalogueEntry entries.now }
    ensures { IfOk result (λ store. store ≡ entries.now) }
{
    let mut store = Store::new(alloc);
    for entry in entries {
        push_entry(&mut store, alloc, entry)?;
    }
    Ok(store)
}

/// A copy of texts that lie in a buffer.
fn list_of(alloc: Global, list: TextListIter<'_>) -> Result<TextList, AllocError>
    ensures { IfOk result (λ copy. copy ≡ texts_left list.entry) }
{
    let mut copy = Vec::new(alloc);
    for text in list {
        copy.push(text.to_vec(alloc)?)?;
    }
    Ok(TextList::of(copy))
}

impl Entry {
    /// A copy of an entry that lies in a buffer; refused only where an allocation failed.
    pub fn copied(alloc: Global, entry: &EntryRef<'_>) -> Result<Entry, AllocError>
        requires { IsEntry entry.now }
        ensures { IfOk result (λ copy. copy ≡ entry.now) }
    {
        let comments = list_of(alloc, entry.comments())?;
        let extracted = list_of(alloc, entry.extracted())?;
        let references = list_of(alloc, entry.references())?;
        let flags = list_of(alloc, entry.flags())?;
        let previous = entry.copy_previous(alloc)?;
        let context = copy_optional(alloc, entry.context())?;
        let id = entry.id().to_vec(alloc)?;
        let plural = copy_optional(alloc, entry.plural())?;
        let forms = entry.forms().copy(alloc)?;
        Ok(Entry::of_fields(
            comments,
            extracted,
            references,
            entry.fuzzy(),
            flags,
            previous,
            context,
            id,
            plural,
            forms,
            entry.obsolete(),
            entry.line(),
        ))
    }
}

/// The catalogue of a copy of each entry; refused only where an allocation failed.
pub fn catalogue_of(alloc: Global, store: &Store) -> Result<Catalogue, AllocError>
    ensures { IfOk result (λ catalogue. catalogue ≡ store.now) }
{
    let mut entries = Vec::with_capacity(alloc, store.len())?;
    for index in 0..store.len() {
        let entry = Entry::copied(alloc, &store.get(index))?;
        entries.push_reserved(entry);
    }
    Ok(Catalogue::of(entries))
}
