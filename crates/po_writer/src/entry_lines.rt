//! The lines of an entry.

ghost use Rattle.std.specs.Prelude.{◌≡◌, ◌++◌, OnOk, codes};
ghost use Rattle.std.specs.List.{flat_map};
ghost use Rattle.po_writer.specs.Prelude.{forms_left, texts_left};
ghost use Rattle.po_writer.specs.WrittenText as written;

use crate::keyword_lines::{push_keyword, push_optional, push_text};
use itoa::Buffer;
use po_entry::{EntryRef, FormIter, TextListIter};
use std::alloc::AllocError;

/// Appends a line for each comment, after the mark of its kind.
fn push_comments(
    out: &mut Vec<u8>,
    mark: &[u8],
    comments: TextListIter<'_>,
) -> Result<(), AllocError>
    ensures appended { OnOk result (out.new.items
        ≡ out.old.items ++ written.comment_lines mark.now (texts_left comments.entry)) }
{
    for comment in comments {
        out.extend_from_slice(mark)?;
        out.extend_from_slice(comment)?;
        out.push(b'\n')?;
    }
    Ok(())
}

/// Appends elements, with a separator before each.
fn push_further(
    out: &mut Vec<u8>,
    separator: &[u8],
    elements: TextListIter<'_>,
) -> Result<(), AllocError>
    ensures appended { OnOk result (out.new.items
        ≡ out.old.items ++ flat_map (λ element. separator.now ++ element) (texts_left elements.entry)) }
{
    for element in elements {
        out.extend_from_slice(separator)?;
        out.extend_from_slice(element)?;
    }
    Ok(())
}

/// Appends a line of elements, where there are any.
fn push_elements(
    out: &mut Vec<u8>,
    mark: &[u8],
    separator: &[u8],
    elements: TextListIter<'_>,
) -> Result<(), AllocError>
    ensures appended { OnOk result (out.new.items
        ≡ out.old.items ++ written.elements_line mark.now separator.now (texts_left elements.entry)) }
{
    let mut left = elements;
    let Some(first) = left.next() else {
        return Ok(());
    };
    out.extend_from_slice(mark)?;
    out.extend_from_slice(first)?;
    push_further(out, separator, left)?;
    out.push(b'\n')?;
    Ok(())
}

/// Appends the line of flags, `fuzzy` first, where there are any.
fn push_flags(out: &mut Vec<u8>, fuzzy: bool, flags: TextListIter<'_>) -> Result<(), AllocError>
    ensures appended { OnOk result (out.new.items
        ≡ out.old.items
        ++ written.elements_line (codes "#, ") (codes ", ") (written.all_flags fuzzy (texts_left flags.entry))) }
{
    if !fuzzy {
        return push_elements(out, b"#, ", b", ", flags);
    }
    out.extend_from_slice(b"#, fuzzy")?;
    push_further(out, b", ", flags)?;
    out.push(b'\n')?;
    Ok(())
}

/// Appends the previous texts that there are.
fn push_previous(out: &mut Vec<u8>, prefix: &[u8], entry: &EntryRef<'_>) -> Result<(), AllocError>
    ensures appended { OnOk result (out.new.items
        ≡ out.old.items ++ written.previous_lines prefix.now entry.now.previous) }
{
    push_optional(out, prefix, b"msgctxt", entry.previous_context())?;
    push_optional(out, prefix, b"msgid", entry.previous_id())?;
    push_optional(out, prefix, b"msgid_plural", entry.previous_plural())
}

/// Appends the plural forms, from index 0 on.
fn push_forms(out: &mut Vec<u8>, prefix: &[u8], forms: FormIter<'_>) -> Result<(), AllocError>
    ensures appended { OnOk result (out.new.items
        ≡ out.old.items ++ written.form_lines prefix.now 0 (forms_left forms.entry)) }
{
    let mut digits = Buffer::new();
    let mut index: usize = 0;
    for form in forms {
        out.extend_from_slice(prefix)?;
        out.extend_from_slice(b"msgstr[")?;
        out.extend_from_slice(digits.format(index).as_bytes())?;
        out.extend_from_slice(b"] ")?;
        push_text(out, prefix, form)?;
        index += 1;
    }
    Ok(())
}

/// Appends the plural, where there is one, and the forms.
fn push_translation(
    out: &mut Vec<u8>,
    prefix: &[u8],
    entry: &EntryRef<'_>,
) -> Result<(), AllocError>
    ensures appended { OnOk result (out.new.items
        ≡ out.old.items ++ written.translation_lines prefix.now entry.now.plural entry.now.forms) }
{
    if let Some(plural) = entry.plural() {
        push_keyword(out, prefix, b"msgid_plural", plural)?;
        return push_forms(out, prefix, entry.forms());
    }
    for form in entry.forms() {
        push_keyword(out, prefix, b"msgstr", form)?;
    }
    Ok(())
}

/// Appends an entry's own lines.
fn push_own(out: &mut Vec<u8>, prefix: &[u8], entry: &EntryRef<'_>) -> Result<(), AllocError>
    ensures appended { OnOk result (out.new.items
        ≡ out.old.items ++ written.own_lines prefix.now entry.now) }
{
    push_optional(out, prefix, b"msgctxt", entry.context())?;
    push_keyword(out, prefix, b"msgid", entry.id())?;
    push_translation(out, prefix, entry)
}

/// What a line of an entry's own begins with, and what one of its previous texts.
fn prefixes(obsolete: bool) -> (&'static [u8], &'static [u8])
    ensures own { result.0.now ≡ written.own_prefix obsolete }
    ensures previous { result.1.now ≡ written.previous_prefix obsolete }
{
    if obsolete {
        (b"#~ ", b"#~| ")
    } else {
        (b"", b"#| ")
    }
}

/// Appends all lines of an entry.
pub(crate) fn push_entry(out: &mut Vec<u8>, entry: &EntryRef<'_>) -> Result<(), AllocError>
    ensures appended { OnOk result (out.new.items ≡ out.old.items ++ written.entry_lines entry.now) }
{
    let (own, previous) = prefixes(entry.obsolete());
    push_comments(out, b"#", entry.comments())?;
    push_comments(out, b"#.", entry.extracted())?;
    push_elements(out, b"#: ", b" ", entry.references())?;
    push_flags(out, entry.fuzzy(), entry.flags())?;
    push_previous(out, previous, entry)?;
    push_own(out, own, entry)
}
