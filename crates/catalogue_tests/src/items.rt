//! The items of texts, their first faults, and quoted forms.

use crate::assertions::{Refused, assert_at, assert_refused};
use crate::texts::{ESCAPES, EVERY_LINE};
use po_syntax::{Item, Marks, PoFault, items, quote};
use std::alloc::{AllocError, Global};
use std::fmt::Write;
use std::test::Fail;

/// The items of a text, each on a line of its own: its line, marks and kind, and its bytes in
/// Rust's escapes.
fn show(alloc: Global, text: &[u8]) -> Result<String, Fail> {
    let mut shown = String::new(alloc);
    for item in items(alloc, text)? {
        show_item(&mut shown, item)?;
    }
    Ok(shown)
}

/// Appends the line of an item.
fn show_item(shown: &mut String, item: Item) -> Result<(), AllocError> {
    match item {
        Item::Comment(kind, text, line) => {
            writeln!(shown, "{line} {kind:?} {}", text.escape_ascii())
        }
        Item::Word(keyword, marks, line) => {
            writeln!(shown, "{line}{} {keyword:?}", mark_text(marks))
        }
        Item::Str(bytes, marks, line) => {
            let bytes = bytes.as_slice().escape_ascii();
            writeln!(shown, "{line}{} {bytes}", mark_text(marks))
        }
    }
}

/// What stands for these marks.
fn mark_text(marks: Marks) -> &'static str {
    match (marks.obsolete, marks.previous) {
        (true, true) => "~|",
        (true, false) => "~",
        (false, true) => "|",
        (false, false) => "",
    }
}

/// Texts with their items.
const SHOWN: &[(&[u8], &str)] = &[
    (
        EVERY_LINE,
        "1 Translator  c
2 Flags  fuzzy , c-format,, c-format
3 Reference  a.c:1 b.c:2
4 Reference  c.c:3
5| MsgId
5| o
6 MsgId
6 k
6 l
7 m
8 MsgIdPlural
8 p
9 MsgStrAt(0)
9 v
",
    ),
    (
        ESCAPES,
        "1| MsgCtxt
1| AA\\xc3\\xa9
2~| MsgId
2~| \\x07\\x08\\t\\n\\x0b\\x0c\\r\\\\\\\"\\x7f7\\x018
3~ MsgStrAt(1)
3~ \\x07
3~ q\\x07
4 Extracted  e
8 Translator 
9 Translator =!
",
    ),
    (b"", ""),
    (b"\"\\xc3\" \"\\xa9\"", "1 \\xc3\n1 \\xa9\n"),
    (b"msgstr [ 4294967295\t]", "1 MsgStrAt(4294967295)\n"),
    (
        b"msgid \"a\"\n#~ msgstr \"b\"",
        "1 MsgId\n1 a\n2~ MsgStr\n2~ b\n",
    ),
];

#[test]
fn items_of_texts(rt: HostRuntime) -> Result<(), Fail> {
    for (text, wanted) in SHOWN {
        assert_eq!(rt; show(rt.alloc(), text)?.as_str(), *wanted);
    }
    Ok(())
}

/// Texts with the leftmost fault and its line.
const FAULTS: &[Refused] = &[
    (b"msgid \"a\"\n\xff", PoFault::NotUtf8, 2),
    (b"\n\n\xc3\n", PoFault::NotUtf8, 3),
    (b"@\n\0", PoFault::ForbiddenByte, 2),
    (b"msgstr \"\\0\"", PoFault::ForbiddenByte, 1),
    (b"\nmsgstr \"\\q\"", PoFault::BadEscape, 2),
    (b"\"\\q", PoFault::BadEscape, 1),
    (b"\"\\400\"", PoFault::BadEscape, 1),
    (b"\"\\x414\"", PoFault::BadEscape, 1),
    (b"\"\\x\"", PoFault::BadEscape, 1),
    (b"\"\\\n\"", PoFault::BadEscape, 1),
    (b"msgid \"\"\n\"a\n\"", PoFault::UnterminatedString, 2),
    (b"msgstr[4294967296", PoFault::BadPluralIndex, 1),
    (b"msgstr[", PoFault::BadToken, 1),
    (b"msgstr[0", PoFault::BadToken, 1),
    (b"msgid[0]", PoFault::BadToken, 1),
    (b"msgids", PoFault::BadToken, 1),
    (b"\"a\" # b", PoFault::BadToken, 1),
    (b"#~ #~", PoFault::BadToken, 1),
    (b"#~ #| msgid", PoFault::BadToken, 1),
    (b"#~ |", PoFault::BadToken, 1),
];

#[test]
fn reports_the_leftmost_fault(rt: HostRuntime) {
    for refused in FAULTS {
        assert_refused(&rt, items(rt.alloc(), refused.0).err(), refused);
    }
}

/// Bytes, each with their quoted form after a keyword.
const QUOTED: &[(&[u8], &[u8])] = &[
    (b"", b"msgid \"\""),
    (b"k", b"msgid \"k\""),
    (b"a\n", b"msgid \"a\\n\""),
    (
        b"\x07\x08\t\n\x0b\x0c\r\"\\",
        b"msgid \"\\a\\b\\t\\n\\v\\f\\r\\\"\\\\\"",
    ),
    (
        b"\x01\x1b1\x7f \xc3\xa9~",
        b"msgid \"\\001\\0331\\177 \xc3\xa9~\"",
    ),
];

#[test]
fn quotes(rt: HostRuntime) -> Result<(), Fail> {
    let mut out = Vec::new(rt.alloc());
    for (bytes, wanted) in QUOTED {
        out.clear();
        out.extend_from_slice(b"msgid ")?;
        quote(bytes, &mut out)?;
        assert_at(&rt, out.as_slice() == *wanted, bytes);
    }
    Ok(())
}
