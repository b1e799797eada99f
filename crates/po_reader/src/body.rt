//! The own lines of an entry: context, msgid, plural and forms.

ghost use Rattle.std.specs.Prelude.{◌≡◌, ◌≢◌, ◌<◌, ◌≤◌, ◌^◌, ◌-◌, ◌++◌, [], ℕ, List, Option, true, length, is_some, option_to_list, None, IfOk, IfErr, IfSome, OnOk, MatchOption};
ghost use Rattle.std.specs.List.{flat_map};
ghost use Rattle.po_syntax.specs.Item.{Word};
ghost use Rattle.po_reader.specs.Prelude.{TextEntry, after_nul};
ghost use Rattle.po_reader.specs.Internal.ReaderView.{AddsEntry, context_bytes, wanted_view};
ghost use Rattle.po_reader.specs.Internal.Stage.{SoFar, Between, Before, InHead, Stop, no_lines, with_own, with_entry, with_context, with_forms, with_translation};
ghost use Rattle.po_reader.specs.Internal.Stage as stage;
ghost use Rattle.po_reader.specs.Internal.Turn.{and_text, begins_form, begins_own, is_wanted, opened, turn_own};
ghost use Rattle.po_reader.specs.Internal.Reads.{comes, Fails};

use crate::cursor::{Cursor, take_strings};
use crate::head::Head;
use po_entry::{Drafts, Row};
use po_syntax::{Keyword, Marks, PoError, PoFault};
use std::alloc::Global;

/// The byte before each text of an entry but the first.
const NUL: u8 = 0;

/// The byte after a context.
const EOT: u8 = 4;

/// What is wanted next of an entry.
#[derive(Clone, Copy)]
enum Wanted {
    /// `msgid`, after a context.
    Id,
    /// `msgstr` or `msgid_plural`, after a msgid.
    Translation,
    /// The plural form with this index.
    Form(u32),
}

/// The fault of a keyword, if it isn't the wanted one or isn't obsolete or live as its entry is.
fn keyword_fault(wanted: Wanted, obsolete: bool, keyword: Keyword, marks: Marks) -> Option<PoFault>
    ensures step { (read : SoFar) (line : ℕ) → read.own.obsolete ≡ obsolete → MatchOption result
        (turn_own read (wanted_view wanted) (Word keyword marks line) ≡ opened read read.own keyword line)
        (λ fault. turn_own read (wanted_view wanted) (Word keyword marks line) ≡ Stop fault line) }
    ensures wanted { result ≡ None → is_wanted (wanted_view wanted) keyword ≡ true }
    ensures other { IfSome result (λ fault. fault ≢ PoFault.OutOfMemory) }
{
    match (wanted, keyword) {
        _ if marks.previous => Some(PoFault::BadOrder),
        (Wanted::Form(index), Keyword::MsgStrAt(found)) if found != index => {
            Some(PoFault::BadPluralIndex)
        }
        (Wanted::Id, Keyword::MsgId)
        | (Wanted::Translation, Keyword::MsgIdPlural | Keyword::MsgStr)
        | (Wanted::Form(_), Keyword::MsgStrAt(_)) => {
            (marks.obsolete != obsolete).then_some(PoFault::MixedObsolete)
        }
        _ => Some(PoFault::BadOrder),
    }
}

/// Takes the wanted keyword, which stands first, and appends its text. Gives the keyword and its
/// line.
fn take_keyword_text(
    rest: &mut Cursor<'_, '_>,
    wanted: Wanted,
    obsolete: bool,
    out: &mut Vec<u8>,
) -> Result<(Keyword, u32), PoError>
    ensures found { IfOk result (λ w. (text : List ℕ) × (out.new.items ≡ out.old.items ++ text)
        × ((read : SoFar) → read.own.obsolete ≡ obsolete → comes (Between (Before read (wanted_view wanted))) rest.old
        ≡ comes (Between (and_text read w.0 w.1 text)) rest.new)) }
    ensures wanted { IfOk result (λ w. is_wanted (wanted_view wanted) w.0 ≡ true) }
    ensures fewer { OnOk result (length rest.new.items < length rest.old.items) }
    ensures fault { IfErr result (λ e. (read : SoFar) → read.own.obsolete ≡ obsolete
        → Fails (Between (Before read (wanted_view wanted))) rest.old e) }
{
    let Some((keyword, marks, line)) = rest.first_word() else {
        return Err(rest.refusal(PoFault::BadOrder));
    };
    if let Some(fault) = keyword_fault(wanted, obsolete, keyword, marks) {
        return Err(rest.refusal(fault));
    }
    rest.advance();
    take_strings(rest, Marks::own(obsolete), out)?;
    Ok((keyword, line))
}

/// Whether a `msgstr[i]` is the first item, and not one of a previous text.
fn begins_form(rest: &Cursor<'_, '_>) -> bool
    ensures { result ≡ begins_form rest.now.items }
{
    match rest.first_word() {
        Some((Keyword::MsgStrAt(_), marks, _)) => !marks.previous,
        _ => false,
    }
}

/// Takes the plural forms that stand first, from index 0 on, and appends each after a NUL.
fn take_forms(rest: &mut Cursor<'_, '_>, obsolete: bool, out: &mut Vec<u8>) -> Result<(), PoError>
    requires { length rest.old.items < 2 ^ 32 }
    ensures found { OnOk result ((forms : List (List ℕ)) × (out.new.items ≡ out.old.items ++ flat_map after_nul forms)
        × ((read : SoFar) → read.own.obsolete ≡ obsolete
        → comes (Between (Before (with_forms read []) (stage.Form 0))) rest.old
        ≡ comes (Between (InHead (with_entry (with_forms read forms)) 0)) rest.new)) }
    ensures fewer { OnOk result (length rest.new.items < length rest.old.items) }
    ensures fault { IfErr result (λ e. (read : SoFar) → read.own.obsolete ≡ obsolete
        → Fails (Between (Before (with_forms read []) (stage.Form 0))) rest.old e) }
{
    let mut index = 0;
    loop {
        out.push(NUL)?;
        take_keyword_text(rest, Wanted::Form(index), obsolete, out)?;
        if !begins_form(rest) {
            return Ok(());
        }
        index += 1;
    }
}

/// Takes what follows a msgid, which stands first: a `msgstr`, or a plural and its forms; and
/// appends each text after a NUL. Gives whether there is a plural.
fn take_translation(
    rest: &mut Cursor<'_, '_>,
    obsolete: bool,
    out: &mut Vec<u8>,
) -> Result<bool, PoError>
    requires { length rest.old.items < 2 ^ 32 }
    ensures found { IfOk result (λ has_plural. (plural : Option (List ℕ)) × (forms : List (List ℕ))
        × (has_plural ≡ is_some plural)
        × (out.new.items ≡ out.old.items ++ flat_map after_nul (option_to_list plural ++ forms))
        × ((read : SoFar) → read.own.obsolete ≡ obsolete → comes (Between (Before read stage.Translation)) rest.old
        ≡ comes (Between (InHead (with_entry (with_translation read plural forms)) 0)) rest.new)) }
    ensures fewer { OnOk result (length rest.new.items < length rest.old.items) }
    ensures fault { IfErr result (λ e. (read : SoFar) → read.own.obsolete ≡ obsolete
        → Fails (Between (Before read stage.Translation)) rest.old e) }
{
    out.push(NUL)?;
    let (keyword, _) = take_keyword_text(rest, Wanted::Translation, obsolete, out)?;
    if let Keyword::MsgIdPlural = keyword {
        take_forms(rest, obsolete, out)?;
        return Ok(true);
    }
    Ok(false)
}

/// Takes the context, if there is one, which stands first, and appends it with an EOT. Gives
/// whether the entry is obsolete.
fn take_context(rest: &mut Cursor<'_, '_>, out: &mut Vec<u8>) -> Result<bool, PoError>
    requires { begins_own rest.old.items ≡ true }
    ensures found { IfOk result (λ obsolete. (context : Option (List ℕ))
        × (out.new.items ≡ out.old.items ++ context_bytes context)
        × ((read : SoFar) (above : ℕ) → comes (Between (InHead read above)) rest.old
        ≡ comes (Between (Before (with_own read (with_context (no_lines obsolete) context)) stage.Id)) rest.new)) }
    ensures fewer { OnOk result (length rest.new.items ≤ length rest.old.items) }
    ensures fault { IfErr result (λ e. (read : SoFar) (above : ℕ) → Fails (Between (InHead read above)) rest.old e) }
{
    let Some((keyword, marks, _)) = rest.first_word() else {
        unreachable!()
    };
    let obsolete = marks.obsolete;
    if let Keyword::MsgCtxt = keyword {
        rest.advance();
        take_strings(rest, Marks::own(obsolete), out)?;
        out.push(EOT)?;
    }
    Ok(obsolete)
}

/// Takes the own lines of an entry, which stand first, and adds the draft of the entry that has
/// this head.
pub(crate) fn take_body(
    alloc: Global,
    rest: &mut Cursor<'_, '_>,
    head: &Head<'_>,
    drafts: &mut Drafts,
) -> Result<(), PoError>
    requires few { length rest.old.items < 2 ^ 32 }
    requires begins { begins_own rest.old.items ≡ true }
    ensures found { OnOk result ((own : TextEntry) × AddsEntry head.now own drafts.old drafts.new
        × ((read : SoFar) (above : ℕ) → comes (Between (InHead read above)) rest.old
        ≡ comes (Between (InHead (with_entry (with_own read own)) 0)) rest.new)) }
    ensures fewer { OnOk result (length rest.new.items < length rest.old.items) }
    ensures fault { IfErr result (λ e. (read : SoFar) (above : ℕ) → Fails (Between (InHead read above)) rest.old e) }
{
    let bytes = &mut drafts.bytes;
    let start = bytes.len();
    let obsolete = take_context(rest, bytes)?;
    let context = bytes.len() - start;
    let (_, line) = take_keyword_text(rest, Wanted::Id, obsolete, bytes)?;
    let key = bytes.len() - start;
    let has_plural = take_translation(rest, obsolete, bytes)?;
    let own = bytes.len() - start;
    head.lay_out(alloc, bytes)?;
    drafts.rows.push(Row {
        start,
        context,
        key,
        own,
        head: bytes.len() - start - own,
        line,
        has_plural,
        fuzzy: head.fuzzy,
        obsolete,
    })?;
    Ok(())
}
