//! Lists of texts, each text in a buffer of its own.

ghost use Rattle.std.specs.Prelude.{◌≡◌, [], IfOk, map};
ghost use Rattle.po_catalog.specs.Prelude.{slice_texts, texts, texts_eq};

use std::alloc::{AllocError, Global};
use std::marker::Model;

/// A list of texts, each in a buffer of its own: the comments, references or flags of an entry.
#[derive(Debug, Drop)]
pub struct TextList {
    items: Vec<Vec<u8>>,
}

impl Model for TextList {
    ghost use Rattle.std.specs.Prelude.{List, ℕ};
    ghost use Rattle.po_entry.specs.Prelude.{texts};

    ghost Value = { List (List ℕ) };

    ghost view = { λ l. texts l.items.items };
}

impl TextList {
    /// No texts. Nothing is allocated.
    pub fn new(alloc: Global) -> TextList
        ensures { result ≡ [] }
    {
        TextList {
            items: Vec::new(alloc),
        }
    }

    /// The list of these texts. Nothing is allocated.
    pub fn of(items: Vec<Vec<u8>>) -> TextList
        ensures { result ≡ texts items.items }
    {
        TextList { items }
    }

    /// The texts, in order, given up by the list. Nothing is allocated.
    pub fn into_texts(self) -> Vec<Vec<u8>>
        ensures { texts result.items ≡ self }
    {
        self.items
    }

    /// The texts, in order.
    pub fn texts(&self) -> &[Vec<u8>]
        ensures { texts result.now ≡ self.now }
    {
        &self.items
    }

    /// A copy of the list; refused only where an allocation failed.
    pub fn copy(&self, alloc: Global) -> Result<TextList, AllocError>
        ensures { IfOk result (λ copy. copy ≡ self.now) }
    {
        Ok(TextList::of(copy_texts(alloc, self.texts())?))
    }
}

/// A copy of each of the texts, in order; refused only where an allocation failed.
pub(crate) fn copy_texts(alloc: Global, list: &[Vec<u8>]) -> Result<Vec<Vec<u8>>, AllocError>
    ensures { IfOk result (λ copy. texts copy.items ≡ texts list.now) }
{
    let mut copy = Vec::with_capacity(alloc, list.len())?;
    for text in list {
        copy.push(text.as_slice().to_vec(alloc)?)?;
    }
    Ok(copy)
}

/// A copy of each of the texts, in order; refused only where an allocation failed.
pub(crate) fn copy_slices(alloc: Global, list: &[&[u8]]) -> Result<Vec<Vec<u8>>, AllocError>
    ensures { IfOk result (λ copy. texts copy.items ≡ slice_texts list.now) }
{
    let mut copy = Vec::with_capacity(alloc, list.len())?;
    for text in list {
        copy.push(text.to_vec(alloc)?)?;
    }
    Ok(copy)
}

/// Empties each text; the list keeps its length.
pub(crate) fn empty_texts(list: &mut [Vec<u8>])
    ensures { texts list.new ≡ map (λ _. []) (texts list.old) }
{
    for text in list.iter_mut() {
        text.clear();
    }
}

/// Whether two lists have the same texts in the same order.
pub(crate) fn same_texts(a: &[Vec<u8>], b: &[Vec<u8>]) -> bool
    ensures { result ≡ texts_eq (texts a.now) (texts b.now) }
{
    a == b
}
