//! An entry on a line, so that a whole catalogue is compared at once.

use po_catalog::Entry;
use std::alloc::Global;
use std::test::Fail;

/// Appends pieces, one after another.
fn push_pieces(line: &mut Vec<u8>, pieces: &[&[u8]]) -> Result<(), Fail> {
    for piece in pieces {
        line.extend_from_slice(piece)?;
    }
    Ok(())
}

/// Appends texts, each with a semicolon after it, and then an end.
fn push_texts(line: &mut Vec<u8>, texts: &[Vec<u8>], end: &[u8]) -> Result<(), Fail> {
    for text in texts {
        push_pieces(line, &[text, b";"])?;
    }
    line.extend_from_slice(end)?;
    Ok(())
}

/// The lines of entries.
pub(crate) fn summaries(alloc: Global, entries: &[Entry]) -> Result<Vec<u8>, Fail> {
    let mut lines = Vec::new(alloc);
    for entry in entries {
        push_summary(&mut lines, entry)?;
    }
    Ok(lines)
}

/// Appends a line for an entry: its marks and its texts, in the order of its fields.
pub(crate) fn push_summary(line: &mut Vec<u8>, entry: &Entry) -> Result<(), Fail> {
    push_texts(line, entry.comments().texts(), b"|")?;
    push_texts(line, entry.extracted().texts(), b"|")?;
    let mark: &[u8] = if entry.fuzzy() { b"|fuzzy!" } else { b"|" };
    push_texts(line, entry.references().texts(), mark)?;
    push_texts(line, entry.flags().texts(), b"|")?;
    let previous = entry.previous();
    push_pieces(
        line,
        &[
            previous.context.as_deref().unwrap_or(b"-"),
            b";",
            previous.id.as_deref().unwrap_or(b"-"),
            b";",
            previous.plural.as_deref().unwrap_or(b"-"),
            b";|",
            entry.context().unwrap_or(b"-"),
            b"|",
            entry.id(),
            b"|",
            entry.plural().unwrap_or(b"-"),
            b"|",
        ],
    )?;
    let end: &[u8] = if entry.obsolete() { b"~\n" } else { b".\n" };
    push_texts(line, entry.forms(), end)
}
