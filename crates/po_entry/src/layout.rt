//! How an entry is laid out in a buffer.

ghost use Rattle.std.specs.Prelude.{◌≡◌, ◌++◌, ◌∷◌, [], IfOk, OnOk, length, option_copied};
ghost use Rattle.std.specs.List.{flat_map};
ghost use Rattle.po_entry.specs.Prelude.{measured, entry_view, texts, Grows, after_nul, context_length, entry_bytes, has_no_head, head_bytes, headed, key_bytes, message_entry, optional_bytes, own_bytes, row_of};

use crate::fields::{Fields, Previous};
use crate::row::Row;
use crate::text_list::{TextList, add_length};
use crate::texts::{EOT, NUL};
use std::alloc::AllocError;

/// How long a context is with the EOT after it; 0 where there is none.
fn context_length(context: Option<&[u8]>) -> usize
    ensures { result ≡ context_length (option_copied context.entry) }
{
    match context {
        Some(text) => text.len() + 1,
        None => 0,
    }
}

/// Appends a key.
fn add_key(bytes: &mut Vec<u8>, context: Option<&[u8]>, id: &[u8]) -> Result<(), AllocError>
    ensures added { OnOk result (bytes.new.items ≡ bytes.old.items ++ key_bytes (option_copied context.entry) id.now) }
    ensures grows { Grows bytes.old.items bytes.new.items }
{
    if let Some(context) = context {
        bytes.extend_from_slice(context)?;
        bytes.push(EOT)?;
    }
    bytes.extend_from_slice(id)
}

/// Appends a text after a NUL.
fn add_text(bytes: &mut Vec<u8>, text: &[u8]) -> Result<(), AllocError>
    ensures added { OnOk result (bytes.new.items ≡ bytes.old.items ++ after_nul text.now) }
    ensures grows { Grows bytes.old.items bytes.new.items }
{
    bytes.push(NUL)?;
    bytes.extend_from_slice(text)
}

/// Appends a text after a NUL, where there is one.
fn add_plural(bytes: &mut Vec<u8>, plural: Option<&[u8]>) -> Result<(), AllocError>
    ensures added { OnOk result (bytes.new.items ≡ bytes.old.items ++ optional_bytes (option_copied plural.entry)) }
    ensures grows { Grows bytes.old.items bytes.new.items }
{
    match plural {
        Some(text) => add_text(bytes, text),
        None => Ok(()),
    }
}

/// Appends a part of a head: its length, and its bytes.
fn add_part(bytes: &mut Vec<u8>, part: &[u8]) -> Result<(), AllocError>
    ensures added { OnOk result (bytes.new.items ≡ bytes.old.items ++ measured part.now) }
    ensures grows { Grows bytes.old.items bytes.new.items }
{
    add_length(bytes, part.len())?;
    bytes.extend_from_slice(part)
}

/// Appends the part of a text that may be missing.
fn add_optional(bytes: &mut Vec<u8>, text: Option<&[u8]>) -> Result<(), AllocError>
    ensures added { OnOk result (bytes.new.items ≡ bytes.old.items ++ measured (optional_bytes (option_copied text.entry))) }
    ensures grows { Grows bytes.old.items bytes.new.items }
{
    let Some(text) = text else {
        return add_part(bytes, &[]);
    };
    add_length(bytes, 1 + text.len())?;
    bytes.push(0)?;
    bytes.extend_from_slice(text)
}

/// Whether a head has nothing.
fn has_no_head(
    comments: &TextList,
    extracted: &TextList,
    references: &TextList,
    flags: &TextList,
    previous: &Previous,
) -> bool
    ensures { result ≡ has_no_head (headed comments.now extracted.now references.now flags.now previous.now) }
{
    // `&` and not `&&`: without branches, so that the proof takes one operand after another.
    comments.is_empty()
        & extracted.is_empty()
        & references.is_empty()
        & flags.is_empty()
        & previous.context.is_none()
        & previous.id.is_none()
        & previous.plural.is_none()
}

/// Appends a head, where it has anything.
pub fn add_head(
    bytes: &mut Vec<u8>,
    comments: &TextList,
    extracted: &TextList,
    references: &TextList,
    flags: &TextList,
    previous: &Previous,
) -> Result<(), AllocError>
    ensures added { OnOk result (bytes.new.items ≡ bytes.old.items
        ++ head_bytes (headed comments.now extracted.now references.now flags.now previous.now)) }
    ensures grows { Grows bytes.old.items bytes.new.items }
{
    if has_no_head(comments, extracted, references, flags, previous) {
        return Ok(());
    }
    add_part(bytes, comments.bytes())?;
    add_part(bytes, extracted.bytes())?;
    add_part(bytes, references.bytes())?;
    add_part(bytes, flags.bytes())?;
    add_optional(bytes, previous.context.as_deref())?;
    add_optional(bytes, previous.id.as_deref())?;
    add_optional(bytes, previous.plural.as_deref())
}

/// Appends the entry of a message, and returns its row.
pub(crate) fn add_message(
    bytes: &mut Vec<u8>,
    context: Option<&[u8]>,
    id: &[u8],
    plural: Option<&[u8]>,
    translation: &[u8],
) -> Result<Row, AllocError>
    ensures row { IfOk result (λ row. row ≡ row_of (length bytes.old.items)
        (message_entry (option_copied context.entry) id.now (option_copied plural.entry) translation.now)) }
    ensures added { OnOk result (bytes.new.items ≡ bytes.old.items ++ entry_bytes
        (message_entry (option_copied context.entry) id.now (option_copied plural.entry) translation.now)) }
    ensures grows { Grows bytes.old.items bytes.new.items }
{
    let start = bytes.len();
    add_key(bytes, context, id)?;
    let key = bytes.len() - start;
    add_plural(bytes, plural)?;
    add_text(bytes, translation)?;
    Ok(Row {
        start,
        context: context_length(context),
        key,
        own: bytes.len() - start,
        head: 0,
        line: 0,
        has_plural: plural.is_some(),
        fuzzy: false,
        obsolete: false,
    })
}

/// Appends an entry, and returns its row.
pub(crate) fn add_entry(bytes: &mut Vec<u8>, fields: &Fields) -> Result<Row, AllocError>
    ensures row { IfOk result (λ row. row ≡ row_of (length bytes.old.items) (entry_view fields.now)) }
    ensures added { OnOk result (bytes.new.items ≡ bytes.old.items ++ entry_bytes (entry_view fields.now)) }
    ensures grows { Grows bytes.old.items bytes.new.items }
{
    let start = bytes.len();
    add_key(bytes, fields.context.as_deref(), &fields.id)?;
    let key = bytes.len() - start;
    add_plural(bytes, fields.plural.as_deref())?;
    for form in &fields.forms {
        add_text(bytes, form)?;
    }
    let own = bytes.len() - start;
    add_head(
        bytes,
        &fields.comments,
        &fields.extracted,
        &fields.references,
        &fields.flags,
        &fields.previous,
    )?;
    Ok(Row {
        start,
        context: context_length(fields.context.as_deref()),
        key,
        own,
        head: bytes.len() - start - own,
        line: fields.line,
        has_plural: fields.plural.is_some(),
        fuzzy: fields.fuzzy,
        obsolete: fields.obsolete,
    })
}
