//! The charset that a header names, and those that are admitted.

ghost use Rattle.std.specs.Prelude.{◌≡◌, IsTrue, ◌↔◌, position};
ghost use Rattle.po_entry.specs.Prelude.{entry_view, HasAdmittedCharset, IsAdmittedName, charset_of, after_charset};

use crate::fields::Fields;

impl Fields {
    /// Whether the charset of their entry is admitted, if it is a header (GNU gettext manual,
    /// "Filling in the Header Entry").
    pub fn has_admitted_charset(&self) -> bool
        ensures { IsTrue result ↔ HasAdmittedCharset (entry_view self.now) }
    {
        if !self.is_header() {
            return true;
        }
        match self.forms.first() {
            Some(form) => admits_charset(form),
            None => true,
        }
    }
}

/// Whether the charset that a header's text names is admitted, if it names one: UTF-8, ASCII, or
/// the template's `CHARSET`.
pub fn admits_charset(text: &[u8]) -> bool
    ensures { IsTrue result ↔ IsAdmittedName (charset_of text.now) }
{
    let name = charset_of(text);
    // `|` and not `||`: without branches, so that the proof takes one operand after another.
    name.is_empty()
        | name.eq_ignore_ascii_case(b"UTF-8")
        | name.eq_ignore_ascii_case(b"UTF8")
        | name.eq_ignore_ascii_case(b"US-ASCII")
        | name.eq_ignore_ascii_case(b"ASCII")
        | name.eq_ignore_ascii_case(b"CHARSET")
}

/// The charset that a header's text names, up to a space, TAB, CR, LF or semicolon; empty where
/// it names none.
fn charset_of(header: &[u8]) -> &[u8]
    ensures { result.now ≡ charset_of header.now }
{
    let name = after_charset(header);
    let end = name
        .iter()
        .position(|b| matches!(*b, b' ' | b'\t' | b'\r' | b'\n' | b';'));
    match end {
        Some(len) => &name[..len],
        None => name,
    }
}

/// What follows the first `charset=`, or nothing.
fn after_charset(header: &[u8]) -> &[u8]
    ensures { result.now ≡ after_charset header.now }
{
    let mut rest = header;
    while let Some((_, next)) = rest.split_first() {
        if rest.starts_with(b"charset=") {
            return &rest[8..];
        }
        rest = next;
    }
    rest
}
