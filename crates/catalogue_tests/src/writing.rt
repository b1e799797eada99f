//! Texts that are read and written again, and catalogues that are built and written.

use crate::assertions::assert_text;
use crate::texts::{EVERY_FIELD, EVERY_FIELD_WRITTEN};
use po_catalog::{Catalogue, Entry, read, write};
use po_writer::laws::{written_text_again, written_text_reads};
use std::alloc::Global;
use std::test::Fail;

/// Texts, each with what is written of its entries.
const TEXTS: &[(&[u8], &[u8])] = &[
    (b"", b""),
    (
        b"msgid \"a\"\nmsgstr \"A\"\n",
        b"msgid \"a\"\nmsgstr \"A\"\n",
    ),
    (EVERY_FIELD, EVERY_FIELD_WRITTEN),
    // The lines before an entry's own lines: none, all of them, and those without `fuzzy`.
    (
        b"#.\n#:\n#,\nmsgid \"k\"\nmsgstr \"v\"\n",
        b"#.\nmsgid \"k\"\nmsgstr \"v\"\n",
    ),
    (
        b"#: x.c:1\n#, x.c:1\n#.x.c:1\n#.y.c:2\n#:y.c:2\n#,y.c:2,fuzzy\nmsgid \"k\"\nmsgstr \"v\"\n",
        b"#.x.c:1\n#.y.c:2\n#: x.c:1 y.c:2\n#, fuzzy, x.c:1, y.c:2\nmsgid \"k\"\nmsgstr \"v\"\n",
    ),
    (
        b"#.x.c:1\n#.y.c:2\n#: x.c:1  y.c:2\n#,x.c:1 , y.c:2\nmsgid \"k\"\nmsgstr \"v\"\n",
        b"#.x.c:1\n#.y.c:2\n#: x.c:1 y.c:2\n#, x.c:1, y.c:2\nmsgid \"k\"\nmsgstr \"v\"\n",
    ),
    (
        b"#, fuzzy, x.c:1, y.c:2\n#: x.c:1\n#: y.c:2\n#.x.c:1\n#.y.c:2\n#~ msgid \"k\"\n#~ msgstr \"v\"\n",
        b"#.x.c:1\n#.y.c:2\n#: x.c:1 y.c:2\n#, fuzzy, x.c:1, y.c:2\n#~ msgid \"k\"\n#~ msgstr \"v\"\n",
    ),
    (
        b"#, x.c:1, y.c:2\n#: x.c:1\n#: y.c:2\n#.x.c:1\n#.y.c:2\n#~ msgid \"k\"\n#~ msgstr \"v\"\n",
        b"#.x.c:1\n#.y.c:2\n#: x.c:1 y.c:2\n#, x.c:1, y.c:2\n#~ msgid \"k\"\n#~ msgstr \"v\"\n",
    ),
    // Previous texts, one with a LF inside and an empty one.
    (
        b"#~| msgctxt \"c\"\n#~| msgid \"i\\nj\"\n#~| msgid_plural \"\"\n#~ msgid \"k\"\n#~ msgstr \"v\"\n",
        b"#~| msgctxt \"c\"\n#~| msgid \"\"\n#~| \"i\\n\"\n#~| \"j\"\n#~| msgid_plural \"\"\n#~ msgid \"k\"\n#~ msgstr \"v\"\n",
    ),
    (
        b"#| msgctxt \"c\"\n#| msgid \"i\\nj\"\n#| msgid_plural \"\"\nmsgid \"k\"\nmsgstr \"v\"\n",
        b"#| msgctxt \"c\"\n#| msgid \"\"\n#| \"i\\n\"\n#| \"j\"\n#| msgid_plural \"\"\nmsgid \"k\"\nmsgstr \"v\"\n",
    ),
];

/// What is written of a text's entries.
fn rewritten(alloc: Global, text: &[u8]) -> Result<Vec<u8>, Fail> {
    let catalogue = read(alloc, text)?;
    Ok(write(alloc, &catalogue)?)
}

/// Whether a catalogue takes an entry.
fn takes(catalogue: &mut Catalogue, entry: Entry) -> bool {
    catalogue.push(entry).is_ok()
}

/// A catalogue with one built message, or none if it isn't taken.
fn catalogue_of(alloc: Global, id: &[u8], form: &[u8]) -> Result<Catalogue, Fail> {
    let entry = Entry::message(alloc, None, id, None, &[form])?;
    let mut catalogue = Catalogue::new(alloc);
    takes(&mut catalogue, entry);
    Ok(catalogue)
}

/// What is written of a catalogue with one built message.
fn written_message(alloc: Global, id: &[u8], form: &[u8]) -> Result<Vec<u8>, Fail> {
    let catalogue = catalogue_of(alloc, id, form)?;
    Ok(write(alloc, &catalogue)?)
}

/// Messages without a plural, each with what is written of it: a form with a LF inside, and one
/// with a LF at its end alone.
const MESSAGES: &[(&[u8], &[u8], &[u8])] = &[
    (
        b"k",
        b"a\nb",
        b"msgid \"k\"\nmsgstr \"\"\n\"a\\n\"\n\"b\"\n",
    ),
    (b"k", b"a\n", b"msgid \"k\"\nmsgstr \"a\\n\"\n"),
    (b"a", b"b", b"msgid \"a\"\nmsgstr \"b\"\n"),
];

#[test]
fn written_anew(rt: HostRuntime) -> Result<(), Fail> {
    for (text, wanted) in TEXTS {
        assert_text(&rt, &rewritten(rt.alloc(), text)?, wanted);
    }
    Ok(())
}

#[test]
fn empty_catalogue(rt: HostRuntime) -> Result<(), Fail> {
    let written = write(rt.alloc(), &Catalogue::new(rt.alloc()))?;
    assert_text(&rt, &written, b"");
    Ok(())
}

#[test]
fn built_messages(rt: HostRuntime) -> Result<(), Fail> {
    for (id, form, wanted) in MESSAGES {
        assert_text(&rt, &written_message(rt.alloc(), id, form)?, wanted);
    }
    Ok(())
}

/// A live and an obsolete entry, as they are written.
const ARRANGED: &[u8] = b"msgctxt \"\"
msgid \"k\"
msgid_plural \"ks\"
msgstr[0] \"v\"
msgstr[1] \"w\\n\"

#, fuzzy
#~ msgctxt \"c\"
#~ msgid \"\"
#~ \"o\\n\"
#~ \"p\"
#~ msgstr \"\\001\\177\\\\\"
";

/// An entry that is obsolete and fuzzy.
fn obsolete_entry(alloc: Global) -> Result<Entry, Fail> {
    let mut entry = Entry::message(alloc, Some(b"c"), b"o\np", None, &[b"\x01\x7f\\"])?;
    entry.set_obsolete(true);
    entry.set_fuzzy(true);
    Ok(entry)
}

/// An entry with a context and a plural.
fn live_entry(alloc: Global) -> Result<Entry, Fail> {
    Ok(Entry::message(alloc, Some(b""), b"k", Some(b"ks"), &[b"v", b"w\n"])?)
}

/// Whether a catalogue takes an obsolete and then a live entry.
fn takes_both(alloc: Global, catalogue: &mut Catalogue) -> Result<bool, Fail> {
    Ok(takes(catalogue, obsolete_entry(alloc)?) && takes(catalogue, live_entry(alloc)?))
}

/// What is written of a catalogue with both, if it takes them.
fn written_of_both(alloc: Global) -> Result<Vec<u8>, Fail> {
    let mut catalogue = Catalogue::new(alloc);
    takes_both(alloc, &mut catalogue)?;
    Ok(write(alloc, &catalogue)?)
}

/// An obsolete entry that stands first comes last, and each of its lines has the prefix.
#[test]
fn arranged_entries(rt: HostRuntime) -> Result<(), Fail> {
    assert_text(&rt, &written_of_both(rt.alloc())?, ARRANGED);
    Ok(())
}

#[test]
fn laws(_rt: HostRuntime) {
    written_text_reads();
    written_text_again();
}
