//! The entries of messages, and the PO text of an MO file.

ghost use Rattle.std.specs.Prelude.{◌<◌, All, IfErr, IfOk, MatchResult, OnOk, length};
ghost use Rattle.po_entry.specs.Prelude.{Lacks, quoted_texts};
ghost use Rattle.msgunfmt.specs.Internal.Unformatting.{AppendsEntry, AppendsMessage, HoldsMessage, RefusesEntry, RefusesMessage};
ghost use Rattle.msgunfmt.specs.Prelude.{IsUnformatted, IsUnformatFault};

use crate::fault::UnformatError;
use mo_file::{Meter, MoView, first_part, key_parts, original_parts};
use po_entry::laws::drafts_are_added;
use po_entry::{Drafts, EntryRef};
use po_syntax::PoFault;
use po_writer::laws::live_entry_is_added;
use po_writer::push_separated;
use std::alloc::{AllocError, Global};

/// Lays out the entry of a message, in place of what the drafts had.
fn lay_out(drafts: &mut Drafts, original: &[u8], translation: &[u8]) -> Result<(), AllocError>
    ensures { OnOk result (HoldsMessage (record { original = original.now; translation = translation.now }) drafts.new) }
{
    let (key, plural) = original_parts(original);
    let (context, id) = key_parts(key);
    // With a plural all of a translation has forms, without one its first part.
    let forms = match plural {
        Some(_) => translation,
        None => first_part(translation),
    };
    drafts_are_added();
    drafts.clear();
    drafts.add_message(context, id, plural, forms)
}

/// Appends the entry of message i to the text, and returns whether its charset is admitted.
fn append_entry(text: &mut Vec<u8>, entry: &EntryRef<'_>, i: u32) -> Result<bool, UnformatError>
    requires { All (Lacks 0) (quoted_texts entry.now) }
    ensures appended { IfOk result (AppendsEntry entry.now text.old.items text.new.items) }
    ensures fault { IfErr result (RefusesEntry entry.now i) }
{
    match entry.check_texts(false) {
        Ok(()) => {}
        Err(PoFault::NotUtf8) => return Err(UnformatError::NotUtf8(i)),
        Err(_) => return Err(UnformatError::ForbiddenByte(i)),
    }
    push_separated(text, entry)?;
    Ok(entry.has_admitted_charset())
}

/// Appends the entry of message i to the text, laid out in place of what the drafts had, and
/// returns whether its charset is admitted.
fn append_message(
    text: &mut Vec<u8>,
    drafts: &mut Drafts,
    view: &MoView<'_>,
    i: u32,
) -> Result<bool, UnformatError>
    requires { i < length view.now.messages }
    ensures appended { IfOk result (AppendsMessage view.now.messages i text.old.items text.new.items) }
    ensures fault { IfErr result (RefusesMessage view.now.messages i) }
{
    let mut meter = Meter::new();
    let original = view.original(i, &mut meter);
    let translation = view.translation(i);
    lay_out(drafts, original, translation)?;
    let entry = EntryRef::of(&drafts.bytes, &drafts.rows[0]);
    append_entry(text, &entry, i)
}

/// The PO text of an MO file of any origin, in either byte order: a live entry for each message, in
/// the order of the file (GNU gettext manual, "Invoking the msgunfmt Program").
///
/// Refused with `Mo` and the first fault of the file; then with `NotUtf8` or `ForbiddenByte` and
/// the first message, counted from 0, whose texts can't stand in an entry; then with
/// `ForeignCharset`, where a header names a charset other than UTF-8 and ASCII. `OutOfMemory` may
/// come in place of any result. One entry is held at a time.
pub fn unformat(alloc: Global, bytes: &[u8]) -> Result<Vec<u8>, UnformatError>
    ensures { MatchResult result (λ text. IsUnformatted bytes.now text.items) (IsUnformatFault bytes.now) }
{
    let mut meter = Meter::new();
    let view = MoView::open(bytes, &mut meter)?;
    let mut text = Vec::with_capacity(alloc, bytes.len())?;
    let mut drafts = Drafts::new(alloc);
    let mut is_admitted = true;
    live_entry_is_added();
    for i in 0..view.len() {
        is_admitted &= append_message(&mut text, &mut drafts, &view, i)?;
    }
    if !is_admitted {
        return Err(UnformatError::ForeignCharset);
    }
    Ok(text)
}
