//! The fields of an entry that is made, and copies of them, where memory can fail.

ghost use Rattle.std.specs.Prelude.{◌≡◌, IfOk, None, option_copied, map, []};
ghost use Rattle.po_entry.specs.Prelude.{entry_view, is_header, no_previous, optional_text, plain_entry, texts};

use crate::text_list::TextList;
use std::alloc::{AllocError, Global};
use std::marker::Model;

/// The previous texts of an entry, on its `#|` lines: what its context, msgid and plural were when
/// it was last translated. Where all are `None`, it has no previous text.
#[derive(Debug, Drop)]
pub struct Previous {
    /// The previous `msgctxt`.
    pub context: Option<Vec<u8>>,
    /// The previous `msgid`.
    pub id: Option<Vec<u8>>,
    /// The previous `msgid_plural`.
    pub plural: Option<Vec<u8>>,
}

impl Model for Previous {
    ghost use Rattle.po_entry.specs.TextEntry.{TextPrevious, optional_text};

    ghost Value = { TextPrevious };

    ghost view = { λ p. record {
      context = optional_text p.context;
      id = optional_text p.id;
      plural = optional_text p.plural;
    } };
}

impl Previous {
    /// No previous text.
    pub fn none() -> Previous
        ensures { result ≡ no_previous }
    {
        Previous {
            context: None,
            id: None,
            plural: None,
        }
    }

    /// A copy of the texts; refused only where an allocation failed.
    pub fn copy(&self, alloc: Global) -> Result<Previous, AllocError>
        ensures { IfOk result (λ p. p ≡ self.now) }
    {
        Ok(Previous {
            context: copy_optional(alloc, self.context.as_deref())?,
            id: copy_optional(alloc, self.id.as_deref())?,
            plural: copy_optional(alloc, self.plural.as_deref())?,
        })
    }
}

/// The fields of an entry, each in a buffer of its own, so that it can be changed.
#[derive(Debug, Drop)]
pub struct Fields {
    /// The translator's comments, each without its `#`.
    pub comments: TextList,
    /// The comments extracted from the program, each without its `#.`.
    pub extracted: TextList,
    /// The references, on `#:` lines.
    pub references: TextList,
    /// Whether the flag `fuzzy` is there.
    pub fuzzy: bool,
    /// The other flags of the `#,` lines.
    pub flags: TextList,
    /// The texts on `#|` lines.
    pub previous: Previous,
    /// The text of `msgctxt`.
    pub context: Option<Vec<u8>>,
    /// The text of `msgid`.
    pub id: Vec<u8>,
    /// The text of `msgid_plural`.
    pub plural: Option<Vec<u8>>,
    /// The text of `msgstr`, or those of `msgstr[0]`, `msgstr[1]` and so on.
    pub forms: Vec<Vec<u8>>,
    /// Whether the entry is obsolete.
    pub obsolete: bool,
    /// The line of `msgid`, counted from 1; 0 where the entry has none.
    pub line: u32,
}

impl Fields {
    /// Fields without a text, at line 0. Nothing is allocated.
    pub fn empty(alloc: Global) -> Fields
        ensures { entry_view result ≡ plain_entry None [] None [] }
    {
        Fields {
            comments: TextList::new(alloc),
            extracted: TextList::new(alloc),
            references: TextList::new(alloc),
            fuzzy: false,
            flags: TextList::new(alloc),
            previous: Previous::none(),
            context: None,
            id: Vec::new(alloc),
            plural: None,
            forms: Vec::new(alloc),
            obsolete: false,
            line: 0,
        }
    }

    /// Whether their entry is a header: without a context, and with an empty msgid.
    pub fn is_header(&self) -> bool
        ensures { result ≡ is_header (entry_view self.now) }
    {
        self.context.is_none() && self.id.is_empty()
    }

    /// Makes each form empty, and keeps how many there are.
    pub fn empty_forms(&mut self)
        ensures { entry_view self.new ≡ record (entry_view self.old) { forms = map (λ _. []) (entry_view self.old).forms } }
    {
        empty_texts(&mut self.forms);
    }
}

/// A copy of a text, where there is one; refused only where an allocation failed.
pub fn copy_optional(alloc: Global, text: Option<&[u8]>) -> Result<Option<Vec<u8>>, AllocError>
    ensures { IfOk result (λ copy. optional_text copy ≡ option_copied text.entry) }
{
    match text {
        Some(bytes) => Ok(Some(bytes.to_vec(alloc)?)),
        None => Ok(None),
    }
}

/// Empties each text; the list keeps its length.
fn empty_texts(list: &mut [Vec<u8>])
    ensures { texts list.new ≡ map (λ _. []) (texts list.old) }
{
    for text in list.iter_mut() {
        text.clear();
    }
}
