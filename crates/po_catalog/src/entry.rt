//! An entry of a catalogue, of which each field is valid.

ghost use Rattle.std.specs.Prelude.{◌≡◌, ◌<◌, ◌↔◌, IfOk, IfErr, IsOkUnless, IsTrue, None, map, [], false, length, option_copied};
ghost use Rattle.po_catalog.specs.Prelude.{HasAdmittedCharset, IsEntry, RefusesMessage, bodies_eq, borrowed_entry, comments_eq, is_header, no_previous, optional_eq, optional_text, out_of_memory, previous_eq, texts};
ghost use Rattle.po_catalog.specs.EntryView.{entry_of};

use crate::text_list::{TextList, copy_slices, copy_texts, empty_texts, same_texts};
use crate::texts::check_texts;
use po_entry::{Previous, admits_charset, copy_optional};
use po_syntax::PoError;
use std::alloc::Global;
use std::marker::Model;

/// An entry of a catalogue: its comments, its texts, and whether it is fuzzy and obsolete (GNU
/// gettext manual, "The Format of PO Files"). No text holds a NUL, all are UTF-8, and each part can
/// be written so that it reads back.
#[derive(Debug, Drop)]
pub struct Entry {
    comments: TextList,
    extracted: TextList,
    references: TextList,
    fuzzy: bool,
    flags: TextList,
    previous: Previous,
    context: Option<Vec<u8>>,
    id: Vec<u8>,
    plural: Option<Vec<u8>>,
    forms: Vec<Vec<u8>>,
    obsolete: bool,
    line: u32,
}

impl Model for Entry {
    ghost use Rattle.po_entry.specs.Prelude.{TextEntry, IsEntry};

    ghost Value = { TextEntry };

    ghost use Rattle.po_catalog.specs.EntryView.{entry_view};

    ghost view = { entry_view };

    ghost invariant = { λ e. IsEntry (entry_view e) };
}

impl Entry {
    /// A live entry of these texts, without comments, at line 0. Refused with `NotUtf8` where a
    /// text is not UTF-8, then with `ForbiddenByte` for a NUL, or for an EOT (byte 4) in the
    /// context or the msgid; and with `OutOfMemory`.
    pub fn message(
        alloc: Global,
        context: Option<&[u8]>,
        id: &[u8],
        plural: Option<&[u8]>,
        forms: &[&[u8]],
    ) -> Result<Entry, PoError>
        requires some_form { 0 < length forms.now }
        requires one_form { plural ≡ None → length forms.now ≡ 1 }
        ensures entry { IfOk result (λ e. e ≡ borrowed_entry context.entry id.now plural.entry forms.now) }
        ensures valid { IfOk result IsEntry }
        ensures fault { IfErr result (λ e. RefusesMessage (borrowed_entry context.entry id.now plural.entry forms.now) e) }
    {
        if let Err(kind) = check_texts(context, id, plural, forms) {
            return Err(PoError { kind, line: 0 });
        }
        let context = copy_optional(alloc, context)?;
        let id = id.to_vec(alloc)?;
        let plural = copy_optional(alloc, plural)?;
        let forms = copy_slices(alloc, forms)?;
        Ok(Entry::of_fields(
            TextList::new(alloc),
            TextList::new(alloc),
            TextList::new(alloc),
            false,
            TextList::new(alloc),
            Previous::none(),
            context,
            id,
            plural,
            forms,
            false,
            0,
        ))
    }

    /// The entry of these fields, which are valid ones. Nothing is allocated.
    pub fn of_fields(
        comments: TextList,
        extracted: TextList,
        references: TextList,
        fuzzy: bool,
        flags: TextList,
        previous: Previous,
        context: Option<Vec<u8>>,
        id: Vec<u8>,
        plural: Option<Vec<u8>>,
        forms: Vec<Vec<u8>>,
        obsolete: bool,
        line: u32,
    ) -> Entry
        requires { IsEntry (entry_of comments extracted references fuzzy flags previous (optional_text context)
            id.items (optional_text plural) (texts forms.items) obsolete line) }
        ensures { result ≡ entry_of comments extracted references fuzzy flags previous (optional_text context)
            id.items (optional_text plural) (texts forms.items) obsolete line }
    {
        Entry {
            comments,
            extracted,
            references,
            fuzzy,
            flags,
            previous,
            context,
            id,
            plural,
            forms,
            obsolete,
            line,
        }
    }

    /// A copy of the entry, with its line; refused only where an allocation failed.
    pub fn copy(&self, alloc: Global) -> Result<Entry, PoError>
        ensures copy { IfOk result (λ e. e ≡ self.now) }
        ensures memory { IsOkUnless result out_of_memory }
    {
        Ok(Entry {
            comments: self.comments.copy(alloc)?,
            extracted: self.extracted.copy(alloc)?,
            references: self.references.copy(alloc)?,
            fuzzy: self.fuzzy,
            flags: self.flags.copy(alloc)?,
            previous: self.previous.copy(alloc)?,
            context: copy_optional(alloc, self.context.as_deref())?,
            id: self.id.as_slice().to_vec(alloc)?,
            plural: copy_optional(alloc, self.plural.as_deref())?,
            forms: copy_texts(alloc, &self.forms)?,
            obsolete: self.obsolete,
            line: self.line,
        })
    }

    /// The translator's comments, each without its `#`.
    pub fn comments(&self) -> &TextList
        ensures { result.now ≡ self.now.comments }
    {
        &self.comments
    }

    /// The comments extracted from the program, each without its `#.`.
    pub fn extracted(&self) -> &TextList
        ensures { result.now ≡ self.now.extracted }
    {
        &self.extracted
    }

    /// The references to the program, in order.
    pub fn references(&self) -> &TextList
        ensures { result.now ≡ self.now.references }
    {
        &self.references
    }

    /// Whether the entry has the flag `fuzzy`: its translation has to be checked.
    pub fn fuzzy(&self) -> bool
        ensures { result ≡ self.now.fuzzy }
    {
        self.fuzzy
    }

    /// The flags other than `fuzzy`, in order.
    pub fn flags(&self) -> &TextList
        ensures { result.now ≡ self.now.flags }
    {
        &self.flags
    }

    /// The context, msgid and plural on `#|` lines, as far as there are any.
    pub fn previous(&self) -> &Previous
        ensures { result.now ≡ self.now.previous }
    {
        &self.previous
    }

    /// The context, where the entry has one. An empty context differs from none.
    pub fn context(&self) -> Option<&[u8]>
        ensures { option_copied result ≡ self.now.context }
    {
        self.context.as_deref()
    }

    /// The msgid, which a header has empty.
    pub fn id(&self) -> &[u8]
        ensures { result.now ≡ self.now.id }
    {
        &self.id
    }

    /// The plural of the msgid, where the entry has one.
    pub fn plural(&self) -> Option<&[u8]>
        ensures { option_copied result ≡ self.now.plural }
    {
        self.plural.as_deref()
    }

    /// The plural forms, from index 0 on; the only form, where the entry has no plural.
    pub fn forms(&self) -> &[Vec<u8>]
        ensures { texts result.now ≡ self.now.forms }
    {
        &self.forms
    }

    /// Whether the entry is obsolete: it stands on `#~` lines.
    pub fn obsolete(&self) -> bool
        ensures { result ≡ self.now.obsolete }
    {
        self.obsolete
    }

    /// The line of the entry's `msgid`, counted from 1; 0 where it was not read from a text.
    pub fn line(&self) -> u32
        ensures { result ≡ self.now.line }
    {
        self.line
    }

    /// Whether the entry is a header: without a context, and with an empty msgid. It may be
    /// obsolete.
    pub fn is_header(&self) -> bool
        ensures { result ≡ is_header self.now }
    {
        self.context.is_none() && self.id.is_empty()
    }

    /// Whether the charset of the entry is admitted, if it is a header (GNU gettext manual,
    /// "Filling in the Header Entry").
    pub fn has_admitted_charset(&self) -> bool
        ensures { IsTrue result ↔ HasAdmittedCharset self.now }
    {
        if !self.is_header() {
            return true;
        }
        match self.forms().first() {
            Some(form) => admits_charset(form),
            None => true,
        }
    }

    /// What holds of every entry, for a proof; it does nothing.
    pub fn invariant(&self)
        ensures { IsEntry self.now }
    {
        let _ = &self.id;
    }

    /// Gives the entry the flag `fuzzy`, or takes it away.
    pub fn set_fuzzy(&mut self, fuzzy: bool)
        ensures { self.new ≡ record self.old { fuzzy = fuzzy } }
    {
        self.fuzzy = fuzzy;
    }

    /// Makes the entry obsolete, or live.
    pub fn set_obsolete(&mut self, obsolete: bool)
        ensures { self.new ≡ record self.old { obsolete = obsolete } }
    {
        self.obsolete = obsolete;
    }

    /// Drops the previous texts.
    pub fn clear_previous(&mut self)
        ensures { self.new ≡ record self.old { previous = no_previous } }
    {
        self.previous = Previous::none();
    }

    /// Makes each form empty, and keeps how many there are.
    pub fn empty_forms(&mut self)
        requires { is_header self.old ≡ false }
        ensures { self.new ≡ record self.old { forms = map (λ _. []) self.old.forms } }
    {
        empty_texts(&mut self.forms);
    }
}

impl PartialEq for Entry {
    ghost use Rattle.po_entry.specs.Prelude.{entry_eq};
    ghost use Rattle.po_entry.specs.Facts.EqualityLaws.{entry_eq_laws};

    ghost eq = { entry_eq };

    ghost laws = { entry_eq_laws };

    /// Whether the entries are the same in all fields but the line.
    fn eq(&self, other: &Entry) -> bool {
        same_comments(self, other)
            && same_previous(self.previous(), other.previous())
            && same_bodies(self, other)
    }
}

/// Whether two entries have the same comments, references and flags.
fn same_comments(a: &Entry, b: &Entry) -> bool
    ensures { result ≡ comments_eq a.now b.now }
{
    same_texts(a.comments().texts(), b.comments().texts())
        && same_texts(a.extracted().texts(), b.extracted().texts())
        && same_texts(a.references().texts(), b.references().texts())
        && a.fuzzy() == b.fuzzy()
        && same_texts(a.flags().texts(), b.flags().texts())
}

/// Whether two entries have the same previous texts.
fn same_previous(a: &Previous, b: &Previous) -> bool
    ensures { result ≡ previous_eq a.now b.now }
{
    same_optional(a.context.as_deref(), b.context.as_deref())
        && same_optional(a.id.as_deref(), b.id.as_deref())
        && same_optional(a.plural.as_deref(), b.plural.as_deref())
}

/// Whether two entries have the same texts, and are both live or both obsolete.
fn same_bodies(a: &Entry, b: &Entry) -> bool
    ensures { result ≡ bodies_eq a.now b.now }
{
    same_optional(a.context(), b.context())
        && a.id() == b.id()
        && same_optional(a.plural(), b.plural())
        && same_texts(a.forms(), b.forms())
        && a.obsolete() == b.obsolete()
}

/// Whether both texts are missing, or both are there and equal.
fn same_optional(a: Option<&[u8]>, b: Option<&[u8]>) -> bool
    ensures { result ≡ optional_eq (option_copied a.entry) (option_copied b.entry) }
{
    match (a, b) {
        (None, None) => true,
        (Some(a), Some(b)) => a == b,
        _ => false,
    }
}
