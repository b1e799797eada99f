//! A text in two parts, live entries before obsolete ones.

ghost use Rattle.std.specs.Prelude.{◌≡◌, ◌++◌, ◌∷◌, List, [], OnOk, IfOk};
ghost use Rattle.po_writer.specs.Prelude.{AreAdded, AreParts, TextEntry, joined_parts, written_text};

use crate::text::push_separated;
use po_entry::EntryRef;
use std::alloc::{AllocError, Global};

/// The two parts of a written text: that of the live entries, and that of the obsolete ones, which
/// comes after it. So the entries can be written and dropped in the order in which they are read.
#[derive(Drop)]
pub struct TextParts {
    /// The text of the live entries.
    pub live: Vec<u8>,
    /// The text of the obsolete entries.
    pub obsolete: Vec<u8>,
}

impl TextParts {
    /// The parts of no entries, with room for so many bytes of live ones.
    pub fn with_capacity(alloc: Global, room: usize) -> Result<TextParts, AllocError>
        ensures { IfOk result (AreParts []) }
    {
        let live = Vec::with_capacity(alloc, room)?;
        Ok(TextParts {
            live,
            obsolete: Vec::new(alloc),
        })
    }

    /// Adds an entry after those that were added before. Refused only where an allocation failed;
    /// then a part may end within the entry.
    pub fn add(&mut self, entry: &EntryRef<'_>) -> Result<(), AllocError>
        ensures added { OnOk result (AreAdded (entry.now ∷ []) self.old self.new) }
        ensures parts { OnOk result ((before : List TextEntry) → AreParts before self.old
            → AreParts (before ++ entry.now ∷ []) self.new) }
    {
        if entry.obsolete() {
            push_separated(&mut self.obsolete, entry)
        } else {
            push_separated(&mut self.live, entry)
        }
    }

    /// The text of the entries that were added. Refused only where an allocation failed.
    pub fn join(self) -> Result<Vec<u8>, AllocError>
        ensures joined { IfOk result (λ text. text.items ≡ joined_parts self) }
        ensures written { IfOk result (λ text. (entries : List TextEntry) → AreParts entries self
            → text.items ≡ written_text entries) }
    {
        let TextParts { mut live, obsolete } = self;
        if obsolete.is_empty() {
            return Ok(live);
        }
        if live.is_empty() {
            return Ok(obsolete);
        }
        live.push(b'\n')?;
        live.extend_from_slice(&obsolete)?;
        Ok(live)
    }
}
