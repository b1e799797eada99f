//! Entries that are built, and whether a catalogue takes them.

use crate::summary::push_summary;
use po_catalog::{Catalogue, Entry, TextList};
use po_syntax::{PoError, PoFault};
use std::alloc::Global;
use std::test::Fail;

/// Whether an entry has this summary.
fn is_summary(alloc: Global, entry: &Entry, wanted: &[u8]) -> Result<bool, Fail> {
    let mut line = Vec::new(alloc);
    push_summary(&mut line, entry)?;
    Ok(line.as_slice() == wanted)
}

/// A message with a plural and two forms.
fn plural_entry(alloc: Global) -> Result<Entry, Fail> {
    Ok(Entry::message(alloc, None, b"a", Some(b"as"), &[b"b", b""])?)
}

/// Whether an entry that no text has is built with just its texts.
fn is_built(alloc: Global) -> Result<bool, Fail> {
    let entry = plural_entry(alloc)?;
    if entry.line() == 0 && !entry.is_header() {
        is_summary(alloc, &entry, b"||||-;-;-;|-|a|as|b;;.\n")
    } else {
        Ok(false)
    }
}

#[test]
fn built_entry(rt: HostRuntime) -> Result<(), Fail> {
    assert!(rt; is_built(rt.alloc())?);
    Ok(())
}

/// The same message, fuzzy and obsolete.
fn marked_entry(alloc: Global) -> Result<Entry, Fail> {
    let mut entry = plural_entry(alloc)?;
    entry.set_fuzzy(true);
    entry.set_obsolete(true);
    Ok(entry)
}

/// Whether a copy equals the marked message until a mark is taken away.
fn is_marked(alloc: Global, copy: &Entry) -> Result<bool, Fail> {
    let mut entry = marked_entry(alloc)?;
    let equals = *copy == entry;
    entry.set_fuzzy(false);
    Ok(equals && *copy != entry)
}

/// Whether the copy of an entry is the marked message.
fn has_marked_copy(alloc: Global, entry: &Entry) -> Result<bool, Fail> {
    let copy = entry.copy(alloc)?;
    is_marked(alloc, &copy)
}

/// Whether the copy of an entry has this summary.
fn has_copy(alloc: Global, entry: &Entry, wanted: &[u8]) -> Result<bool, Fail> {
    let copy = entry.copy(alloc)?;
    is_summary(alloc, &copy, wanted)
}

/// Whether an entry is copied with the texts and marks of the marked message.
fn is_copied(alloc: Global, entry: &Entry) -> Result<bool, Fail> {
    Ok(has_marked_copy(alloc, entry)? && has_copy(alloc, entry, b"|||fuzzy!|-;-;-;|-|a|as|b;;~\n")?)
}

fn marked_is_copied(alloc: Global) -> Result<bool, Fail> {
    let entry = marked_entry(alloc)?;
    is_copied(alloc, &entry)
}

#[test]
fn copied_entry(rt: HostRuntime) -> Result<(), Fail> {
    assert!(rt; marked_is_copied(rt.alloc())?);
    Ok(())
}

/// Whether a list of one text gives it back.
fn gives_back(alloc: Global, text: &[u8]) -> Result<bool, Fail> {
    let mut texts = Vec::new(alloc);
    texts.push(text.to_vec(alloc)?)?;
    let texts = TextList::of(texts).into_texts();
    Ok(texts.len() == 1 && texts.first().is_some_and(|first| first.as_slice() == text))
}

#[test]
fn lists_of_texts(rt: HostRuntime) -> Result<(), Fail> {
    assert!(rt; TextList::new(rt.alloc()).texts().is_empty());
    assert!(rt; gives_back(rt.alloc(), b"a")?);
    Ok(())
}

/// Whether an empty catalogue takes an entry, and gives it up.
fn keeps(alloc: Global, entry: Entry) -> bool {
    let mut catalogue = Catalogue::new(alloc);
    match catalogue.push(entry) {
        Ok(()) => catalogue.entries().len() == 1 && catalogue.into_entries().len() == 1,
        Err(_) => false,
    }
}

#[test]
fn kept_entry(rt: HostRuntime) -> Result<(), Fail> {
    let entry = plural_entry(rt.alloc())?;
    assert!(rt; keeps(rt.alloc(), entry));
    Ok(())
}

/// A context, a msgid and a form that no entry can have, with the fault that is reported first.
const REFUSED: &[(Option<&[u8]>, &[u8], &[u8], PoFault)] = &[
    (None, b"\xff", b"\x00", PoFault::NotUtf8),
    (Some(b"\xc3"), b"a", b"b", PoFault::NotUtf8),
    (None, b"a", b"b\x00", PoFault::ForbiddenByte),
    (None, b"a\x04", b"b", PoFault::ForbiddenByte),
    (Some(b"\x04"), b"a", b"b", PoFault::ForbiddenByte),
];

#[test]
fn refused_messages(rt: HostRuntime) {
    for (context, id, form, kind) in REFUSED {
        let wanted = PoError {
            kind: *kind,
            line: 0,
        };
        let reported = Entry::message(rt.alloc(), *context, id, None, &[form]).err();
        assert_eq!(rt; reported, Some(wanted));
    }
}

/// Forms of a header, each with the fault of the charset that it names, if it may not name it.
const CHARSETS: &[(&[u8], Option<PoFault>)] = &[
    (b"", None),
    (b"Content-Type: text/plain; charset=UTF-8\n", None),
    (b"charset=utf8;", None),
    (b"charset=\n", None),
    (b"xcharset=us-Ascii", None),
    (b"charset=CHARSET x charset=latin1", None),
    (b"charset=ISO-8859-1\n", Some(PoFault::ForeignCharset)),
    (
        b"charset=latin1 charset=UTF-8",
        Some(PoFault::ForeignCharset),
    ),
    (b"charset=UTF-8x", Some(PoFault::ForeignCharset)),
];

/// The fault with which a catalogue gives a header of this form back, if it does.
fn header_fault(alloc: Global, form: &[u8]) -> Result<Option<PoFault>, Fail> {
    let header = Entry::message(alloc, None, b"", None, &[form])?;
    let mut catalogue = Catalogue::new(alloc);
    Ok(match catalogue.push(header) {
        Ok(()) => None,
        Err((header, error)) => header.is_header().then_some(error.kind),
    })
}

#[test]
fn charsets_of_headers(rt: HostRuntime) -> Result<(), Fail> {
    for (form, wanted) in CHARSETS {
        assert_eq!(rt; header_fault(rt.alloc(), form)?, *wanted);
    }
    Ok(())
}
