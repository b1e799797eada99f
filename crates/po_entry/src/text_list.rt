//! Lists of texts, each kept in one buffer.

ghost use Rattle.std.specs.Prelude.{◌≡◌, ◌+◌, ◌≤◌, ◌==◌, ◌++◌, ◌∷◌, [], IfOk, IsOk, MatchOption, None, OnErr, OnOk, Some, length};
ghost use Rattle.std.specs.Iterator.{YieldsFirstBy, item_count};
ghost use Rattle.std.specs.Vec.{vec_capacity, vec_len};
ghost use Rattle.std.specs.List.{flat_map};
ghost use Rattle.po_entry.specs.Prelude.{Grows, length_bytes, measured, text_length, texts_in, texts_left};

use byteorder::{ByteOrder, LittleEndian};
use std::alloc::{AllocError, Global};
use std::marker::Model;

/// The byte before a length of eight bytes. A length below it is one byte.
const LONG: u8 = 255;

/// How many bytes a long length takes, besides the byte before it.
const LENGTH_BYTES: usize = 8;

/// For how many bytes there is room with the first text, where that is shorter: three references
/// with their lengths.
const FIRST_BYTES: usize = 56;

/// A list of texts in one buffer, each behind its length: comments, references or flags.
#[derive(Debug)]
pub struct TextList {
    bytes: Vec<u8>,
}

impl Drop for TextList {
    #[inline(always)]
    fn drop(self) {
        let TextList { bytes: _ } = self;
    }
}

impl Model for TextList {
    ghost use Rattle.std.specs.Prelude.{List, ℕ};
    ghost use Rattle.po_entry.specs.TextList.{AreTexts, texts_in};

    ghost Value = { List (List ℕ) };

    ghost view = { λ l. texts_in l.bytes.items };

    ghost invariant = { λ l. AreTexts l.bytes.items };
}

impl TextList {
    /// No texts. Nothing is allocated.
    pub fn new(alloc: Global) -> TextList
        ensures { result ≡ [] }
    {
        TextList {
            bytes: Vec::new(alloc),
        }
    }

    /// No texts, with room for so many that have so many bytes in all.
    pub fn with_capacity(alloc: Global, count: usize, bytes: usize) -> Result<TextList, AllocError>
        ensures { IfOk result (λ list. list ≡ []) }
    {
        let long = bytes / LONG as usize;
        let lengths = count.saturating_add(long * LENGTH_BYTES);
        Ok(TextList {
            bytes: Vec::with_capacity(alloc, bytes.saturating_add(lengths))?,
        })
    }

    /// Whether there is no text.
    pub fn is_empty(&self) -> bool
        ensures { result ≡ (length self.now == 0) }
    {
        self.bytes.is_empty()
    }

    /// Adds a text at the end. Where an allocation failed, the list stays as it was.
    pub fn push(&mut self, text: &[u8]) -> Result<(), AllocError>
        ensures ok { OnOk result (self.new ≡ self.old ++ text.now ∷ []) }
        ensures unchanged { OnErr result (self.new ≡ self.old) }
    {
        let len = text.len();
        let of_length = if len < LONG as usize {
            1
        } else {
            1 + LENGTH_BYTES
        };
        make_room(&mut self.bytes, of_length + len)?;
        add_length(&mut self.bytes, len)?;
        self.bytes.extend_from_slice(text)?;
        Ok(())
    }

    /// The texts, in order.
    pub fn iter(&self) -> TextListIter<'_>
        ensures { texts_left result ≡ self.now }
    {
        TextListIter { bytes: &self.bytes }
    }

    /// Empties the list, and keeps its room.
    pub fn clear(&mut self)
        ensures { self.new ≡ [] }
    {
        self.bytes.clear();
    }

    /// The texts in one buffer, each behind its length.
    pub(crate) fn bytes(&self) -> &[u8]
        ensures { result.now ≡ flat_map measured self.now }
    {
        &self.bytes
    }
}

/// Makes room for so many bytes more, and in a buffer without room for three references at least,
/// but for no others: most lists have few texts.
fn make_room(bytes: &mut Vec<u8>, more: usize) -> Result<(), AllocError>
    ensures items { bytes.new.items ≡ bytes.old.items }
    ensures room { OnOk result (vec_len bytes.new + more ≤ vec_capacity bytes.new) }
{
    if bytes.capacity() == 0 {
        bytes.reserve_exact(more.max(FIRST_BYTES))
    } else {
        bytes.reserve(more)
    }
}

/// Adds a length. Where there is room for it, nothing is refused.
#[inline(always)]
pub(crate) fn add_length(bytes: &mut Vec<u8>, len: usize) -> Result<(), AllocError>
    ensures ok { OnOk result (bytes.new.items ≡ bytes.old.items ++ length_bytes len) }
    ensures grows { Grows bytes.old.items bytes.new.items }
    ensures len { OnOk result (vec_len bytes.new ≡ vec_len bytes.old + length (length_bytes len)) }
    ensures capacity { vec_capacity bytes.old ≤ vec_capacity bytes.new }
    ensures room { vec_len bytes.old + length (length_bytes len) ≤ vec_capacity bytes.old → IsOk result }
{
    if len < LONG as usize {
        bytes.push(len as u8)?;
        return Ok(());
    }
    bytes.push(LONG)?;
    bytes.extend_from_slice(&(len as u64).to_le_bytes())
}

/// The length with which a buffer begins, and the bytes after it; none where no whole length stands
/// there.
fn text_length(bytes: &[u8]) -> Option<(usize, &[u8])>
    ensures { MatchOption result (text_length bytes.now ≡ None)
        (λ p. text_length bytes.now ≡ Some (p.0, p.1.now)) }
{
    let (&first, rest) = bytes.split_first()?;
    if first < LONG {
        return Some((first as usize, rest));
    }
    if rest.len() < LENGTH_BYTES {
        return None;
    }
    let (length, rest) = rest.split_at(LENGTH_BYTES);
    Some((LittleEndian::read_u64(length) as usize, rest))
}

/// The first text of a buffer, and the bytes after it; none where no whole length stands there.
pub(crate) fn first_text(bytes: &[u8]) -> Option<(&[u8], &[u8])>
    ensures { MatchOption result (texts_in bytes.now ≡ [])
        (λ p. texts_in bytes.now ≡ p.0.now ∷ texts_in p.1.now) }
{
    let (length, rest) = text_length(bytes)?;
    Some(rest.split_at(length.min(rest.len())))
}

/// The texts of a list, in order.
#[derive(Drop)]
pub struct TextListIter<'a> {
    bytes: &'a [u8],
}

impl<'a> TextListIter<'a> {
    /// The texts of these bytes.
    pub(crate) fn of(bytes: &'a [u8]) -> Self
        ensures { texts_left result ≡ texts_in bytes.now }
    {
        TextListIter { bytes }
    }

    /// A list of the texts that are left; refused only where an allocation failed.
    pub fn copy(self, alloc: Global) -> Result<TextList, AllocError>
        ensures { IfOk result (λ copy. copy ≡ texts_left self.entry) }
    {
        let mut copy = TextList::with_capacity(alloc, 0, self.bytes.len())?;
        for text in self {
            copy.push(text)?;
        }
        Ok(copy)
    }
}

impl<'a> Iterator for TextListIter<'a> {
    type Item = &'a [u8];

    ghost next_gives = { YieldsFirstBy (λ t. t.now) texts_left };

    ghost remaining = { item_count texts_left };

    fn next(&mut self) -> Option<&'a [u8]> {
        let (text, rest) = first_text(self.bytes)?;
        self.bytes = rest;
        Some(text)
    }
}
