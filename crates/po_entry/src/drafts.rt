//! Entries in one buffer before their texts are checked.

ghost use Rattle.std.specs.Prelude.{◌≡◌, [], OnErr, OnOk, option_copied};
ghost use Rattle.po_entry.specs.Prelude.{Adds, AreLaid, entries_in, message_entry};

use crate::layout::add_message;
use crate::row::Row;
use std::alloc::{AllocError, Global};

/// Entries in one buffer, with a row for each, before their texts are checked.
#[derive(Debug, Drop)]
pub struct Drafts {
    /// The bytes of the entries.
    pub bytes: Vec<u8>,
    /// Where each entry lies.
    pub rows: Vec<Row>,
}

impl Drafts {
    /// No entries. Nothing is allocated.
    pub fn new(alloc: Global) -> Drafts
        ensures { result.rows.items ≡ [] }
    {
        Drafts {
            bytes: Vec::new(alloc),
            rows: Vec::new(alloc),
        }
    }

    /// Adds the entry that a message of an MO file makes: live, without comments, at line 0. The
    /// translation has its forms with a NUL between them. Where an allocation failed, the entries
    /// are those that were there.
    pub fn add_message(
        &mut self,
        context: Option<&[u8]>,
        id: &[u8],
        plural: Option<&[u8]>,
        translation: &[u8],
    ) -> Result<(), AllocError>
        ensures ok { OnOk result (Adds (message_entry (option_copied context.entry) id.now (option_copied plural.entry)
            translation.now) self.old self.new) }
        ensures unchanged { OnErr result (AreLaid self.old → AreLaid self.new × (entries_in self.new ≡ entries_in self.old)) }
    {
        let row = add_message(&mut self.bytes, context, id, plural, translation)?;
        self.rows.push(row)?;
        Ok(())
    }

    /// Drops the entries, and keeps their room.
    pub fn clear(&mut self)
        ensures { self.new.rows.items ≡ [] }
    {
        self.bytes.clear();
        self.rows.clear();
    }
}
