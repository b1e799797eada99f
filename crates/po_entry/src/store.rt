//! The entries of a catalogue in one buffer.

ghost use Rattle.std.specs.Prelude.{◌≡◌, ◌+◌, ◌^◌, ◌<◌, ◌≤◌, ◌++◌, ◌∷◌, [], IfOk, OnOk, OnErr, All, filter, length, get_or, map, not};
ghost use Rattle.std.specs.Vec.{vec_capacity, vec_len};
ghost use Rattle.po_entry.specs.Prelude.{entry_view, TextEntry, IsCatalogueEntry, AreLaid, changed_at, entries_in, moved, set_fuzzy, set_obsolete};

use crate::drafts::Drafts;
use crate::entry_ref::EntryRef;
use crate::fields::Fields;
use crate::layout::add_entry;
use crate::row::Row;
use std::alloc::{AllocError, Global};
use std::marker::Model;

/// The entries of a catalogue in one buffer, with a row for each, which are in their order. The
/// bytes may lie in any order, with gaps between them.
#[derive(Debug, Drop)]
pub struct Store {
    bytes: Vec<u8>,
    rows: Vec<Row>,
}

impl Model for Store {
    ghost use Rattle.std.specs.Prelude.{List, All, map};
    ghost use Rattle.po_entry.specs.TextEntry.{TextEntry};
    ghost use Rattle.po_entry.specs.Validity.{IsCatalogueEntry};
    ghost use Rattle.po_entry.specs.Rows.{entry_at, LiesIn};

    ghost Value = { List TextEntry };

    ghost view = { λ s. map (entry_at s.bytes.items) s.rows.items };

    ghost invariant = { λ s. record {
      lie : All (LiesIn s.bytes.items) s.rows.items;
      valid : All IsCatalogueEntry (map (entry_at s.bytes.items) s.rows.items);
    } };
}

impl Store {
    /// No entries. Nothing is allocated.
    pub fn new(alloc: Global) -> Store
        ensures { result ≡ [] }
    {
        Store {
            bytes: Vec::new(alloc),
            rows: Vec::new(alloc),
        }
    }

    /// No entries, with room for so many that have so many bytes in all.
    pub fn with_capacity(alloc: Global, count: usize, bytes: usize) -> Result<Store, AllocError>
        ensures { IfOk result (λ store. store ≡ []) }
    {
        Ok(Store {
            bytes: Vec::with_capacity(alloc, bytes)?,
            rows: Vec::with_capacity(alloc, count)?,
        })
    }

    /// How many entries there are.
    pub fn len(&self) -> usize
        ensures { result ≡ length self.now }
    {
        self.rows.len()
    }

    /// The entry with this index.
    pub fn get(&self, index: usize) -> EntryRef<'_>
        requires { index < length self.now }
        ensures entry { (other : TextEntry) → result ≡ get_or self.now index other }
        ensures valid { IsCatalogueEntry result }
    {
        EntryRef::of(&self.bytes, &self.rows[index])
    }

    /// Adds the entries of drafts, each of which can stand in a catalogue. Where an allocation
    /// failed, the entries are those that were there.
    pub fn append(&mut self, drafts: &Drafts) -> Result<(), AllocError>
        requires lie { AreLaid drafts.now }
        requires valid { All IsCatalogueEntry (entries_in drafts.now) }
        ensures ok { OnOk result (self.new ≡ self.old ++ entries_in drafts.now) }
        ensures unchanged { OnErr result (self.new ≡ self.old) }
    {
        let start = self.bytes.as_slice().len();
        self.rows.reserve(drafts.rows.len())?;
        self.bytes.extend_from_slice(&drafts.bytes)?;
        add_rows(&mut self.rows, &drafts.rows, start);
        Ok(())
    }

    /// Adds the entry of these fields. Where an allocation failed, the entries are those that were
    /// there.
    pub fn push(&mut self, fields: &Fields) -> Result<(), AllocError>
        requires { IsCatalogueEntry (entry_view fields.now) }
        ensures ok { OnOk result (self.new ≡ self.old ++ entry_view fields.now ∷ []) }
        ensures unchanged { OnErr result (self.new ≡ self.old) }
    {
        let row = add_entry(&mut self.bytes, fields)?;
        self.rows.push(row)?;
        Ok(())
    }

    /// Drops the entries, and keeps their room.
    pub fn clear(&mut self)
        ensures { self.new ≡ [] }
    {
        self.bytes.clear();
        self.rows.clear();
    }

    /// Gives an entry the flag `fuzzy`, or takes it away.
    pub fn set_fuzzy(&mut self, index: usize, fuzzy: bool)
        requires { index < length self.old }
        ensures { self.new ≡ changed_at (set_fuzzy fuzzy) index self.old }
    {
        self.rows[index].fuzzy = fuzzy;
    }

    /// Makes an entry obsolete, or live.
    pub fn set_obsolete(&mut self, index: usize, obsolete: bool)
        requires { index < length self.old }
        ensures { self.new ≡ changed_at (set_obsolete obsolete) index self.old }
    {
        self.rows[index].obsolete = obsolete;
    }

    /// Keeps the live entries.
    pub fn keep_live(&mut self)
        ensures { self.new ≡ filter (λ entry. not entry.obsolete) self.old }
    {
        self.rows.retain(|row| !row.obsolete);
    }
}

/// Adds rows of bytes that now begin there, for which there is room.
fn add_rows(rows: &mut Vec<Row>, more: &[Row], start: usize)
    requires room { vec_len rows.old + length more.now ≤ vec_capacity rows.old }
    requires fits { All (λ row. start + row.start < 2 ^ 64) more.now }
    ensures { rows.new.items ≡ rows.old.items ++ map (moved start) more.now }
{
    for row in more {
        rows.push_reserved(Row {
            start: start + row.start,
            ..*row
        });
    }
}
