//! A keyword and its string, on one line or on several.

ghost use Rattle.std.specs.Prelude.{◌≡◌, ◌<◌, ◌++◌, ◌∷◌, [], OnOk, length, option_copied};
ghost use Rattle.po_syntax.specs.Facts.LinesWithEnds.{lines_with_ends};
ghost use Rattle.po_writer.specs.Prelude.{text_lines, keyword_lines, optional_lines, string_line};

use memchr::memchr;
use po_syntax::quote;
use std::alloc::AllocError;

/// Splits a text after its first LF, or at its end where it has none.
fn split_line(text: &[u8]) -> (&[u8], &[u8])
    ensures lines { 0 < length text.now → lines_with_ends text.now ≡ result.0.now ∷ lines_with_ends result.1.now }
    ensures shorter { 0 < length text.now → length result.1.now < length text.now }
    ensures empty { text.now ≡ [] → result.1.now ≡ [] }
{
    match memchr(b'\n', text) {
        Some(end) => text.split_at(end + 1),
        None => text.split_at(text.len()),
    }
}

/// Appends a prefix, the quoted form of a text or of a part of one, and a LF.
fn push_string(out: &mut Vec<u8>, prefix: &[u8], text: &[u8]) -> Result<(), AllocError>
    ensures appended { OnOk result (out.new.items ≡ out.old.items ++ string_line prefix.now text.now) }
{
    out.extend_from_slice(prefix)?;
    quote(text, out).map_err(|_| AllocError)?;
    out.push(b'\n')?;
    Ok(())
}

/// Appends what stands after a keyword: its text, as one string, or as one for each line where a LF
/// stands before its last byte.
pub(crate) fn push_text(out: &mut Vec<u8>, prefix: &[u8], text: &[u8]) -> Result<(), AllocError>
    ensures appended { OnOk result (out.new.items ≡ out.old.items ++ text_lines prefix.now text.now) }
{
    if split_line(text).1.is_empty() {
        return push_string(out, b"", text);
    }
    push_string(out, b"", b"")?;
    let mut rest = text;
    while !rest.is_empty() {
        let (line, after) = split_line(rest);
        push_string(out, prefix, line)?;
        rest = after;
    }
    Ok(())
}

/// Appends a keyword with its text.
pub(crate) fn push_keyword(
    out: &mut Vec<u8>,
    prefix: &[u8],
    keyword: &[u8],
    text: &[u8],
) -> Result<(), AllocError>
    ensures appended { OnOk result (out.new.items ≡ out.old.items ++ keyword_lines prefix.now keyword.now text.now) }
{
    out.extend_from_slice(prefix)?;
    out.extend_from_slice(keyword)?;
    out.push(b' ')?;
    push_text(out, prefix, text)
}

/// Appends a keyword with its text, where there is a text.
pub(crate) fn push_optional(
    out: &mut Vec<u8>,
    prefix: &[u8],
    keyword: &[u8],
    text: Option<&[u8]>,
) -> Result<(), AllocError>
    ensures appended { OnOk result (out.new.items
        ≡ out.old.items ++ optional_lines prefix.now keyword.now (option_copied text.entry)) }
{
    match text {
        Some(text) => push_keyword(out, prefix, keyword, text),
        None => Ok(()),
    }
}
