//! An entry that lies in a buffer.

ghost use Rattle.std.specs.Prelude.{◌≡◌, ◌+◌, ◌++◌, ◌∷◌, ◌==◌, MatchOption, drop, length, option_copied};
ghost use Rattle.std.specs.Iterator.{YieldsFirstBy, item_count};
ghost use Rattle.po_entry.specs.Prelude.{Lacks, first_form, is_header, texts_left, LiesIn, entry_at, forms_of, head_at, key_bytes, optional_in, original_bytes, own_at, part_at, split_forms, translation_bytes, forms_left};

use crate::row::Row;
use crate::text_list::{TextListIter, first_text};
use crate::texts::NUL;
use memchr::memchr;
use std::marker::Model;

/// An entry that lies in a buffer: of a store, or of drafts.
#[derive(Drop)]
pub struct EntryRef<'a> {
    bytes: &'a [u8],
    row: &'a Row,
}

impl<'a> Model for EntryRef<'a> {
    ghost use Rattle.po_entry.specs.TextEntry.{TextEntry};
    ghost use Rattle.po_entry.specs.Rows.{entry_at, LiesIn};

    ghost Value = { TextEntry };

    ghost view = { λ e. entry_at e.bytes.now e.row.now };

    ghost invariant = { λ e. LiesIn e.bytes.now e.row.now };
}

/// The bytes of an entry's own texts.
fn own<'a>(bytes: &'a [u8], row: &Row) -> &'a [u8]
    requires { LiesIn bytes.now row.now }
    ensures own { result.now ≡ own_at bytes.now row.now }
    ensures len { length result.now ≡ row.now.own }
{
    &bytes[row.start..row.start + row.own]
}

/// What follows the key, without the NUL between them.
fn after_key<'a>(bytes: &'a [u8], row: &Row) -> &'a [u8]
    requires { LiesIn bytes.now row.now }
    ensures { result.now ≡ drop (row.now.key + 1) (own_at bytes.now row.now) }
{
    let own = own(bytes, row);
    own.split_at((row.key + 1).min(own.len())).1
}

/// The part of an entry's head with this index.
fn part<'a>(bytes: &'a [u8], row: &Row, index: usize) -> &'a [u8]
    requires { LiesIn bytes.now row.now }
    ensures { result.now ≡ part_at index (head_at bytes.now row.now) }
{
    let start = row.start + row.own;
    let mut rest = &bytes[start..start + row.head];
    for _ in 0..index {
        match first_text(rest) {
            Some((_, after)) => rest = after,
            None => return &[],
        }
    }
    match first_text(rest) {
        Some((text, _)) => text,
        None => &[],
    }
}

/// The text of a part, where there is one.
fn optional(part: &[u8]) -> Option<&[u8]>
    ensures { option_copied result ≡ optional_in part.now }
{
    match part {
        [] => None,
        [_, text @ ..] => Some(text),
    }
}

impl<'a> EntryRef<'a> {
    /// The entry that has this row.
    pub fn of(bytes: &'a [u8], row: &'a Row) -> EntryRef<'a>
        requires { LiesIn bytes.now row.now }
        ensures { result ≡ entry_at bytes.now row.now }
    {
        EntryRef { bytes, row }
    }

    /// Whether the entry has the flag `fuzzy`.
    pub fn fuzzy(&self) -> bool
        ensures { result ≡ self.now.fuzzy }
    {
        self.row.fuzzy
    }

    /// Whether the entry is obsolete.
    pub fn obsolete(&self) -> bool
        ensures { result ≡ self.now.obsolete }
    {
        self.row.obsolete
    }

    /// The line of its msgid, counted from 1; 0 where it was not read from a text.
    pub fn line(&self) -> u32
        ensures { result ≡ self.now.line }
    {
        self.row.line
    }

    /// The translator's comments, each without its `#`.
    pub fn comments(&self) -> TextListIter<'a>
        ensures { texts_left result ≡ self.now.comments }
    {
        TextListIter::of(part(self.bytes, self.row, 0))
    }

    /// The comments extracted from the program, each without its `#.`.
    pub fn extracted(&self) -> TextListIter<'a>
        ensures { texts_left result ≡ self.now.extracted }
    {
        TextListIter::of(part(self.bytes, self.row, 1))
    }

    /// The references to the program, in order.
    pub fn references(&self) -> TextListIter<'a>
        ensures { texts_left result ≡ self.now.references }
    {
        TextListIter::of(part(self.bytes, self.row, 2))
    }

    /// The flags other than `fuzzy`, in order.
    pub fn flags(&self) -> TextListIter<'a>
        ensures { texts_left result ≡ self.now.flags }
    {
        TextListIter::of(part(self.bytes, self.row, 3))
    }

    /// The previous context, where there is one.
    pub fn previous_context(&self) -> Option<&'a [u8]>
        ensures { option_copied result ≡ self.now.previous.context }
    {
        optional(part(self.bytes, self.row, 4))
    }

    /// The previous msgid, where there is one.
    pub fn previous_id(&self) -> Option<&'a [u8]>
        ensures { option_copied result ≡ self.now.previous.id }
    {
        optional(part(self.bytes, self.row, 5))
    }

    /// The previous plural, where there is one.
    pub fn previous_plural(&self) -> Option<&'a [u8]>
        ensures { option_copied result ≡ self.now.previous.plural }
    {
        optional(part(self.bytes, self.row, 6))
    }

    /// The context, where the entry has one. An empty context differs from none.
    pub fn context(&self) -> Option<&'a [u8]>
        ensures { option_copied result ≡ self.now.context }
    {
        if self.row.context == 0 {
            return None;
        }
        Some(&own(self.bytes, self.row)[..self.row.context - 1])
    }

    /// The msgid, which a header has empty.
    pub fn id(&self) -> &'a [u8]
        ensures { result.now ≡ self.now.id }
    {
        let key = &own(self.bytes, self.row)[..self.row.key];
        key.split_at(self.row.context).1
    }

    /// The plural of the msgid, where the entry has one.
    pub fn plural(&self) -> Option<&'a [u8]>
        ensures { option_copied result ≡ self.now.plural }
    {
        if !self.row.has_plural {
            return None;
        }
        let rest = after_key(self.bytes, self.row);
        Some(split_text(rest).0)
    }

    /// The plural forms, from index 0 on; the only form, where the entry has no plural.
    pub fn forms(&self) -> FormIter<'a>
        ensures { forms_left result ≡ self.now.forms }
    {
        let rest = after_key(self.bytes, self.row);
        if self.row.has_plural {
            return FormIter {
                rest: split_text(rest).1,
            };
        }
        FormIter { rest: Some(rest) }
    }

    /// The key that an MO file has it by: the msgid, or the context, an EOT and the msgid.
    pub fn key(&self) -> &'a [u8]
        ensures { result.now ≡ key_bytes self.now.context self.now.id }
    {
        own(self.bytes, self.row).split_at(self.row.key).0
    }

    /// Its original in an MO file: the key and, where it has a plural, a NUL and the plural.
    pub fn original(&self) -> &'a [u8]
        ensures { result.now ≡ original_bytes self.now }
    {
        if !self.row.has_plural {
            return self.key();
        }
        let len = split_text(after_key(self.bytes, self.row)).0.len();
        own(self.bytes, self.row).split_at(self.row.key + 1 + len).0
    }

    /// Its translation in an MO file: the forms, with a NUL between them.
    pub fn translation(&self) -> &'a [u8]
        ensures { result.now ≡ translation_bytes self.now }
    {
        let rest = after_key(self.bytes, self.row);
        if self.row.has_plural {
            return split_text(rest).1.unwrap_or(&[]);
        }
        rest
    }

    /// Whether the entry is a header: without a context, and with an empty msgid.
    pub fn is_header(&self) -> bool
        ensures { result ≡ is_header self.now }
    {
        self.context().is_none() && self.id().is_empty()
    }
}

/// What stands before the first NUL and what after it, where there is one.
fn split_at_nul(text: &[u8]) -> Option<(&[u8], &[u8])>
    ensures { MatchOption result (Lacks 0 text.now) (λ parts. (text.now ≡ parts.0.now ++ 0 ∷ parts.1.now)
        × Lacks 0 parts.0.now) }
{
    let place = memchr(NUL, text)?;
    Some((&text[..place], &text[place + 1..]))
}

/// The first of texts with a NUL between them, and those after it, where there are any.
fn split_text(texts: &[u8]) -> (&[u8], Option<&[u8]>)
    ensures { split_forms texts.now ≡ result.0.now ∷ forms_of (option_copied result.1) }
{
    match split_at_nul(texts) {
        Some((text, rest)) => (text, Some(rest)),
        None => (texts, None),
    }
}

/// Texts with a NUL between them, in order.
#[derive(Drop)]
pub struct FormIter<'a> {
    rest: Option<&'a [u8]>,
}

impl FormIter<'_> {
    /// Whether the first text is empty, or there is none.
    pub(crate) fn first_is_empty(&self) -> bool
        ensures { result ≡ (length (first_form (forms_left self.now)) == 0) }
    {
        match self.rest {
            Some([first, ..]) => *first == NUL,
            _ => true,
        }
    }
}

impl<'a> Iterator for FormIter<'a> {
    type Item = &'a [u8];

    ghost next_gives = { YieldsFirstBy (λ t. t.now) forms_left };

    ghost remaining = { item_count forms_left };

    fn next(&mut self) -> Option<&'a [u8]> {
        let (text, rest) = split_text(self.rest?);
        self.rest = rest;
        Some(text)
    }
}
