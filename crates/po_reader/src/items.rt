//! The entries that the items of a piece spell, as drafts, and whether these can stand in a
//! catalogue.

ghost use Rattle.std.specs.Prelude.{◌≡◌, ◌≢◌, ◌<◌, ◌^◌, ◌++◌, List, All, length, true, IfErr, IsUtf8, OnOk};
ghost use Rattle.po_reader.specs.Prelude.{AreLaid, EntriesStop, EntryTextFault, HasAdmittedCharset, HasTexts, IsFaultOf, ItemsFault, Lacks, TextItem, entries_in, quoted_texts, views};
ghost use Rattle.po_reader.specs.Internal.Keeping.{CanFollow, ReadsUpTo};
ghost use Rattle.po_reader.specs.Internal.Reads.{ChecksStop};

use crate::body::take_body;
use crate::cursor::Cursor;
use crate::head::{Head, take_head};
use po_entry::laws::drafts_are_added;
use po_entry::{Drafts, EntryRef};
use po_syntax::{Item, PoError, PoFault};
use std::alloc::Global;

/// Adds the entries that the items spell, in order, to the drafts, with their comments, references
/// and flags or without. The first of them has the comments that the head holds; after them it
/// holds the comments that stand last.
pub(crate) fn lay_out_items<'a>(
    alloc: Global,
    items: &[Item<'a>],
    with_comments: bool,
    head: &mut Head<'a>,
    drafts: &mut Drafts,
) -> Result<(), PoError>
    requires { length items.now < 2 ^ 32 }
    ensures found { OnOk result ((before : List TextItem) → CanFollow before (views items.now)
        → ReadsUpTo with_comments before head.old drafts.old
        → ReadsUpTo with_comments (before ++ views items.now) head.new drafts.new) }
    ensures fault { IfErr result (λ e. (before : List TextItem) → CanFollow before (views items.now)
        → ReadsUpTo with_comments before head.old drafts.old
        → IsFaultOf (ItemsFault (before ++ views items.now)) e) }
{
    drafts_are_added();
    let mut rest = Cursor::of(items);
    loop {
        take_head(alloc, &mut rest, with_comments, head)?;
        if rest.is_empty() {
            return Ok(());
        }
        take_body(alloc, &mut rest, head, drafts)?;
        head.clear();
    }
}

/// Whether entries can have the texts that were read for them, checked in their order. If it is
/// known that these are UTF-8, that is not tested.
fn check_texts(drafts: &Drafts, are_utf8: bool) -> Result<(), PoError>
    requires lie { AreLaid drafts.now }
    requires no_nul { All (λ entry. All (Lacks 0) (quoted_texts entry)) (entries_in drafts.now) }
    requires utf8 { are_utf8 ≡ true → All (λ entry. All IsUtf8 (quoted_texts entry)) (entries_in drafts.now) }
    ensures ok { OnOk result (All HasTexts (entries_in drafts.now)) }
    ensures fault { IfErr result (λ e. EntriesStop HasTexts EntryTextFault (entries_in drafts.now) e.kind e.line) }
{
    for row in &drafts.rows {
        if let Err(kind) = EntryRef::of(&drafts.bytes, row).check_texts(are_utf8) {
            return Err(PoError {
                kind,
                line: row.line,
            });
        }
    }
    Ok(())
}

/// Whether each draft can stand in a catalogue: their texts are checked in their order, then the
/// charsets of the headers. If it is known that the texts are UTF-8, that is not tested.
pub(crate) fn check_drafts(drafts: &Drafts, are_utf8: bool) -> Result<(), PoError>
    requires lie { AreLaid drafts.now }
    requires no_nul { All (λ entry. All (Lacks 0) (quoted_texts entry)) (entries_in drafts.now) }
    requires utf8 { are_utf8 ≡ true → All (λ entry. All IsUtf8 (quoted_texts entry)) (entries_in drafts.now) }
    ensures texts { OnOk result (All HasTexts (entries_in drafts.now)) }
    ensures charsets { OnOk result (All HasAdmittedCharset (entries_in drafts.now)) }
    ensures fault { IfErr result (λ e. ChecksStop (entries_in drafts.now) e.kind e.line) }
    ensures other { IfErr result (λ e. e.kind ≢ PoFault.OutOfMemory) }
{
    check_texts(drafts, are_utf8)?;
    for row in &drafts.rows {
        if !EntryRef::of(&drafts.bytes, row).has_admitted_charset() {
            return Err(PoError {
                kind: PoFault::ForeignCharset,
                line: row.line,
            });
        }
    }
    Ok(())
}
