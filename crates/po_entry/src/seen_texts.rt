//! Texts that were seen, in the order in which each was seen first.

ghost use Rattle.std.specs.Prelude.{◌≡◌, [], IfOk, OnOk, length, map};
ghost use Rattle.std.specs.List.{position_or_len};
ghost use Rattle.std.specs.Str.{bytes_eq};
ghost use Rattle.po_entry.specs.Prelude.{seed_of, with_seen};

use crate::text_list::TextList;
use indexmap::IndexSet;
use std::alloc::{AllocError, Global};
use std::hash::{BuildHasher, DefaultHasher, Hash, Hasher};
use std::marker::Model;

/// Begins each hash with a digest of all that is hashed, so that no choice of it makes an index
/// slow: who changes a text changes the digest, and with it all hashes.
#[derive(Clone, Copy)]
pub struct Seeded {
    start: DefaultHasher,
}

impl Model for Seeded {
    ghost use Rattle.std.specs.declared.hash.DefaultHasher.{DefaultHasher};

    ghost Value = { DefaultHasher };

    ghost view = { λ s. s.start };

    ghost inverse = { λ start. record { start = start } };
}

impl Seeded {
    /// Begins each hash with this digest. It counts as two words, since one of them could be
    /// chosen, by trying texts.
    pub fn of(digest: &DefaultHasher) -> Seeded
        ensures { result ≡ seed_of digest.now }
    {
        let mut more = *digest;
        more.write_u8(1);
        let mut start = DefaultHasher::new();
        start.write_u64(digest.finish());
        start.write_u64(more.finish());
        Seeded { start }
    }
}

impl BuildHasher for Seeded {
    type Hasher = DefaultHasher;

    ghost build_hasher = { λ s. s };

    fn build_hasher(&self) -> DefaultHasher {
        self.start
    }
}

/// A text in the index, which hashes its bytes at once.
#[derive(Clone, Copy, PartialEq, Eq)]
struct SeenText<'a> {
    bytes: &'a [u8],
}

impl Hash for SeenText<'_> {
    ghost use Rattle.std.specs.Prelude.{◌∷◌, []};
    ghost use Rattle.po_entry.specs.Internal.{equal_texts_write_alike};

    ghost hash_input = { λ text. text.bytes.now ∷ [] };

    ghost respects_eq = { equal_texts_write_alike };

    fn hash<H: Hasher>(&self, state: &mut H) {
        state.write(self.bytes);
    }
}

/// The texts that were seen, each once.
pub struct SeenTexts<'a> {
    index: IndexSet<SeenText<'a>, Seeded>,
}

impl Drop for SeenTexts<'_> {
    fn drop(self) {
        let SeenTexts { index: _ } = self;
    }
}

impl<'a> Model for SeenTexts<'a> {
    ghost use Rattle.std.specs.Prelude.{List, ℕ, map};

    ghost Value = { List (List ℕ) };

    ghost view = { λ seen. map (λ text. text.bytes.now) seen.index.keys };
}

impl<'a> SeenTexts<'a> {
    /// None. Nothing is allocated.
    pub fn new(alloc: Global, hasher: Seeded) -> SeenTexts<'a>
        ensures { result ≡ [] }
    {
        SeenTexts {
            index: IndexSet::with_hasher(alloc, hasher),
        }
    }

    /// None, with room for so many. Refused only where an allocation failed.
    pub fn with_capacity(
        alloc: Global,
        count: usize,
        hasher: Seeded,
    ) -> Result<SeenTexts<'a>, AllocError>
        ensures { IfOk result (λ seen. seen ≡ []) }
    {
        Ok(SeenTexts {
            index: IndexSet::with_capacity_and_hasher(alloc, count, hasher)?,
        })
    }

    /// How many they are.
    pub fn len(&self) -> usize
        ensures { result ≡ length self.now }
    {
        self.index.len()
    }

    /// Adds a text, unless it was seen, and gives its index. Refused only where an allocation
    /// failed.
    pub fn add(&mut self, text: &'a [u8]) -> Result<usize, AllocError>
        ensures seen { OnOk result (self.new ≡ with_seen self.old text.now) }
        ensures index { IfOk result (λ index. index ≡ position_or_len (bytes_eq text.now) self.old) }
    {
        let (index, _) = self.index.insert_full(SeenText { bytes: text })?;
        Ok(index)
    }

    /// They as a list. Refused only where an allocation failed. What they have besides their bytes
    /// is given back first.
    pub fn into_list(self, alloc: Global) -> Result<TextList, AllocError>
        ensures { IfOk result (λ list. list ≡ self.entry) }
    {
        let SeenTexts { index } = self;
        let mut len: usize = 0;
        for text in &index {
            len = len.saturating_add(text.bytes.len());
        }
        let mut list = TextList::with_capacity(alloc, index.len(), len)?;
        for text in index {
            list.push(text.bytes)?;
        }
        Ok(list)
    }
}
