//! Texts that are read, each with what its entries hold.

mod pieces;
mod refused;

use crate::assertions::assert_at;
use crate::summary::summaries;
use crate::texts::{EVERY_FIELD, EVERY_FIELD_WRITTEN, EVERY_LINE, FUZZY_AND_OBSOLETE};
use po_catalog::{Entry, read};
use std::alloc::Global;
use std::test::Fail;

/// Texts with the summaries of their entries, and the line of the last entry.
const TEXTS: &[(&[u8], &[u8], u32)] = &[
    (b"", b"", 0),
    (b"# only a comment\n#, fuzzy\n", b"", 0),
    (b"msgid \"a\"\nmsgstr \"b\"\n", b"||||-;-;-;|-|a|-|b;.\n", 1),
    (b"msgid \"a\"\r\nmsgstr \"b\"", b"||||-;-;-;|-|a|-|b;.\n", 1),
    (
        b"\xef\xbb\xbfmsgid \"a\" msgstr \"b\"",
        b"||||-;-;-;|-|a|-|b;.\n",
        1,
    ),
    (
        FUZZY_AND_OBSOLETE,
        b"|||fuzzy!|-;-;-;|-||-|Content-Type: text/plain; charset=UTF-8\n;.\n||||-;-;-;|-|a|-|A;.\n|||fuzzy!|-;-;-;|-|b|-|B;.\n||||-;-;-;|-|c|-|;.\n||||-;-;-;|-|d|-|D;~\n",
        15,
    ),
    (
        EVERY_LINE,
        b" c;||a.c:1;b.c:2;c.c:3;|fuzzy!c-format;|-;o;-;|-|klm|p|v;.\n",
        6,
    ),
    (
        b"msgid \"a\"\nmsgstr \"\\101\\x41\\xc3\\xa9\"\n",
        b"||||-;-;-;|-|a|-|AA\xc3\xa9;.\n",
        1,
    ),
    (
        b"msgid \"a\"\nmsgstr \"\\xc3\"\n\"\\xa9\"\n",
        b"||||-;-;-;|-|a|-|\xc3\xa9;.\n",
        1,
    ),
    (
        b"msgctxt \"\"\nmsgid \"x\"\nmsgstr \"1\"\n",
        b"||||-;-;-;||x|-|1;.\n",
        2,
    ),
    (
        b"msgctxt \"c\"\nmsgid \"x\"\nmsgid_plural \"xs\"\nmsgstr[0] \"1\"\nmsgstr[1] \"2\"\n",
        b"||||-;-;-;|c|x|xs|1;2;.\n",
        2,
    ),
    (
        b"msgid \"x\" msgid_plural \"xs\" msgstr[ 00 ] \"1\" msgid \"y\" msgstr \"2\"\n",
        b"||||-;-;-;|-|x|xs|1;.\n||||-;-;-;|-|y|-|2;.\n",
        1,
    ),
    (
        b"#. e\n#  t\n#: \n#,\nmsgid \"x\"\nmsgstr \"1\"\n",
        b"  t;| e;|||-;-;-;|-|x|-|1;.\n",
        5,
    ),
    (
        b"#, a b ,\tno-wrap\n#, range: 1..2, fuzzy\nmsgid \"x\"\nmsgstr \"1\"\n",
        b"|||fuzzy!a b;no-wrap;range: 1..2;|-;-;-;|-|x|-|1;.\n",
        3,
    ),
    (
        b"#| msgctxt \"c\"\n# k\n#~| msgid \"o\" \"p\"\n#| msgid_plural \"q\"\nmsgid \"x\"\nmsgstr \"1\"\n",
        b" k;||||c;op;q;|-|x|-|1;.\n",
        5,
    ),
    (
        b"#~ msgctxt \"c\"\n#~ msgid \"x\"\n#~ \"y\"\n#~ msgstr \"1\"\n# end\n",
        b"||||-;-;-;|c|xy|-|1;~\n",
        2,
    ),
    (
        b"#= s\n#! t\n#\nmsgid \"x\"\nmsgstr \"1\"\n",
        b"= s;! t;;||||-;-;-;|-|x|-|1;.\n",
        4,
    ),
    (
        b"#| msgid \"\\004\"\nmsgid \"x\"\nmsgstr \"1\\004\"\n",
        b"||||-;\x04;-;|-|x|-|1\x04;.\n",
        2,
    ),
    (
        b"msgid \"\"\nmsgstr \"charset=utf8 x\"\n#~ msgid \"\"\n#~ msgstr \"charset=CharSet\"\n",
        b"||||-;-;-;|-||-|charset=utf8 x;.\n||||-;-;-;|-||-|charset=CharSet;~\n",
        3,
    ),
    (
        b"msgctxt \"c\"\nmsgid \"\"\nmsgstr \"charset=latin1\"\n",
        b"||||-;-;-;|c||-|charset=latin1;.\n",
        2,
    ),
    (
        b"  \tmsgid\t\"a\"\"b\"\n\x0c\x0bmsgstr\"c\"\n",
        b"||||-;-;-;|-|ab|-|c;.\n",
        1,
    ),
    (
        b"msgid \"a\"\nmsgstr \"\\n\\t\\b\\r\\f\\v\\a\\\\\\\"\\1012\\18\"\n",
        b"||||-;-;-;|-|a|-|\n\t\x08\r\x0c\x0b\x07\\\"A2\x018;.\n",
        1,
    ),
    (
        b"msgid \"\"\nmsgid_plural \"\"\nmsgstr[0] \"charset=ASCII\"\nmsgstr[1] \"charset=x\"\n",
        b"||||-;-;-;|-|||charset=ASCII;charset=x;.\n",
        1,
    ),
    (
        b"msgid \"a\"\nmsgstr \"b\"\n# end\n#. e\n#~ # o\n",
        b"||||-;-;-;|-|a|-|b;.\n",
        1,
    ),
    (
        b"#| msgid \"p\"\n#~ msgid \"a\"\n#~ msgstr \"b\"\n",
        b"||||-;p;-;|-|a|-|b;~\n",
        2,
    ),
    (
        EVERY_FIELD,
        b" t one;  t two;| e;|a.c:1;b.c:2;c.c:3;|fuzzy!c-format;no-wrap;|pc;pipjpk;pp;|c|ij|p|f;g\nh\n;~\n||||-;-;-;|-|i|-|\"q\";.\n",
        19,
    ),
    (
        EVERY_FIELD_WRITTEN,
        b"||||-;-;-;|-|i|-|\"q\";.\n t one;  t two;| e;|a.c:1;b.c:2;c.c:3;|fuzzy!c-format;no-wrap;|pc;pipjpk;pp;|c|ij|p|f;g\nh\n;~\n",
        13,
    ),
];

/// Whether entries have these summaries, and the last stands at this line.
fn are_summaries(alloc: Global, entries: &[Entry], wanted: &[u8], line: u32) -> Result<bool, Fail> {
    let last = match entries {
        [.., entry] => entry.line(),
        [] => 0,
    };
    Ok(last == line && summaries(alloc, entries)?.as_slice() == wanted)
}

/// Whether a text has entries with these summaries, and the last at this line.
fn reads_as(alloc: Global, text: &[u8], wanted: &[u8], line: u32) -> Result<bool, Fail> {
    let catalogue = read(alloc, text)?;
    are_summaries(alloc, catalogue.entries(), wanted, line)
}

#[test]
fn texts_of_entries(rt: HostRuntime) -> Result<(), Fail> {
    for (text, wanted, line) in TEXTS {
        assert_at(&rt, reads_as(rt.alloc(), text, wanted, *line)?, text);
    }
    Ok(())
}

#[test]
fn lines_and_marks(rt: HostRuntime) -> Result<(), Fail> {
    let catalogue = read(rt.alloc(), EVERY_FIELD)?;
    let right = match catalogue.entries() {
        [entry, _] => entry.line() == 12 && !entry.is_header(),
        _ => false,
    };
    assert!(rt; right);
    Ok(())
}

/// Whether the only entry of a catalogue, at line 2, equals one that is built with this form, and
/// its copy.
fn equals_built(alloc: Global, entries: &[Entry], form: &[u8]) -> Result<bool, Fail> {
    let built = Entry::message(alloc, None, b"a", None, &[form])?;
    let copy = built.copy(alloc)?;
    Ok(match entries {
        [entry] => entry.line() == 2 && *entry == built && *entry == copy,
        _ => false,
    })
}

/// Whether the entry that is read equals one that is built with this form.
fn read_equals_built(alloc: Global, form: &[u8]) -> Result<bool, Fail> {
    let catalogue = read(alloc, b"\nmsgid \"a\"\nmsgstr \"b\"\n")?;
    equals_built(alloc, catalogue.entries(), form)
}

/// An entry that was built equals the one that was read, whose line is left aside.
#[test]
fn built_entry(rt: HostRuntime) -> Result<(), Fail> {
    assert!(rt; read_equals_built(rt.alloc(), b"b")? && !read_equals_built(rt.alloc(), b"c")?);
    Ok(())
}
