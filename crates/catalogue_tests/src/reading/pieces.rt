//! Texts that are read in pieces of every size: each reads as the whole.

use crate::assertions::{Refused, assert_refused};
use crate::summary::summaries;
use po_catalog::catalogue_of;
use po_entry::{Drafts, Store};
use po_reader::next_store;
use po_syntax::{Pieces, PoError, PoFault};
use std::alloc::Global;
use std::test::Fail;

/// Texts with the summaries of their entries. An empty line stands inside an entry, before and
/// after comments, and between the strings of a text; lines end with CR LF after a byte order mark;
/// no line is empty, and one line has an entry and the beginning of the next.
const TEXTS: &[(&[u8], &[u8])] = &[
    (
        b"# one\n\nmsgid \"a\"\n\nmsgstr \"A\"\n\n# two\n\n#. e\nmsgid \"b\"\nmsgstr \"B\"\n\"C\"\n\n\n#~ msgid \"d\"\n#~ msgstr \"D\"\n\n# end\n",
        b" one;||||-;-;-;|-|a|-|A;.\n two;| e;|||-;-;-;|-|b|-|BC;.\n||||-;-;-;|-|d|-|D;~\n",
    ),
    (
        b"\xef\xbb\xbfmsgid \"a\"\r\n\r\nmsgstr \"A\"\r\n\r\n#, fuzzy\r\n\r\nmsgid \"b\"\r\nmsgid_plural \"p\"\r\nmsgstr[0] \"B\"\r\n\r\nmsgstr[1] \"C\"\r\n\r\nmsgctxt \"c\"\r\n\r\nmsgid \"d\"\r\nmsgstr \"D\"\r\n",
        b"||||-;-;-;|-|a|-|A;.\n|||fuzzy!|-;-;-;|-|b|p|B;C;.\n||||-;-;-;|c|d|-|D;.\n",
    ),
    (
        b"#| msgid \"o\"\n\nmsgid \"a\"\nmsgstr \"\"\n\n\"A\"\n\n\"B\"\n#: a.c:1\n\n#: b.c:2\nmsgid \"b\"\nmsgstr \"C\"",
        b"||||-;o;-;|-|a|-|AB;.\n||a.c:1;b.c:2;||-;-;-;|-|b|-|C;.\n",
    ),
    (
        b"msgid \"a\"\nmsgstr \"A\"\nmsgid \"b\"\nmsgstr \"B\"\n",
        b"||||-;-;-;|-|a|-|A;.\n||||-;-;-;|-|b|-|B;.\n",
    ),
    (
        b"# t\nmsgid \"a\"\nmsgstr \"A\"\n\"B\"\n#. e\nmsgctxt \"c\"\nmsgid \"b\"\nmsgid_plural \"p\"\nmsgstr[0] \"C\"\nmsgstr[1] \"D\"\n#~ msgid \"d\"\n#~ msgstr \"E\"\n#| msgid \"o\"\nmsgid \"f\"\nmsgstr \"F\"\nmsgid \"g\" msgstr \"G\" msgid \"h\"\nmsgstr \"H\"\n# end\n",
        b" t;||||-;-;-;|-|a|-|AB;.\n| e;|||-;-;-;|c|b|p|C;D;.\n||||-;-;-;|-|d|-|E;~\n||||-;o;-;|-|f|-|F;.\n||||-;-;-;|-|g|-|G;.\n||||-;-;-;|-|h|-|H;.\n",
    ),
];

/// Texts with a fault in a later piece, or where a piece ends, and its line in the text.
const REFUSED: &[Refused] = &[
    (
        b"msgid \"a\"\nmsgstr \"A\"\n\nmsgid \"b\"\nmsgstr \"B\"\n\nmsgid \"c\" x\nmsgstr \"C\"\n",
        PoFault::BadToken,
        7,
    ),
    (
        b"msgid \"a\"\nmsgstr \"A\"\n\nmsgstr \"B\"\n\nmsgid \"c\"\nmsgstr \"C\"\n",
        PoFault::BadOrder,
        4,
    ),
    (
        b"msgid \"a\"\nmsgstr \"A\"\n\nmsgid \"b\"\nmsgstr \"\\xff\"\n\nmsgid \"c\"\n\nmsgid \"d\"\n",
        PoFault::BadOrder,
        9,
    ),
    (
        b"msgid \"a\"\nmsgstr \"A\"\n\nmsgid \"b\"\nmsgstr \"\\xff\"\n\nmsgid \"c\"\nmsgstr \"C\\q\"\n",
        PoFault::BadEscape,
        8,
    ),
    (b"\"x\"\nmsgid \"a\"\nmsgstr \"A\"\n", PoFault::BadOrder, 1),
    (
        b"msgid \"a\"\nmsgstr \"\\xff\"\nmsgid \"b\"\nmsgstr \"B\"\n",
        PoFault::NotUtf8,
        1,
    ),
    (
        b"msgid \"a\"\nmsgstr \"\\xff\"\nmsgid \"b\"\nmsgstr \"B\\q\"\n",
        PoFault::BadEscape,
        4,
    ),
    (
        b"msgid \"a\"\nmsgstr \"A\"\nmsgid \"b\"\n",
        PoFault::BadOrder,
        3,
    ),
    (
        b"msgid \"a\"\nmsgstr \"A\"\n# c\n\"B\"\nmsgid \"b\"\nmsgstr \"B\"\n",
        PoFault::BadOrder,
        4,
    ),
    (
        b"msgid \"a\"\nmsgstr \"A\"\nmsgstr[1] \"B\"\n",
        PoFault::BadOrder,
        3,
    ),
    (
        b"msgid \"a\"\nmsgid_plural \"p\"\nmsgstr[0] \"A\"\nmsgstr[2] \"B\"\n",
        PoFault::BadPluralIndex,
        4,
    ),
    (
        b"msgid \"a\"\nmsgstr \"A\"\n#~ \"B\"\n",
        PoFault::MixedObsolete,
        3,
    ),
];

/// The entries of a text that is read in pieces of this size.
fn read_in_pieces(alloc: Global, text: &[u8], size: usize) -> Result<Store, PoError> {
    let mut pieces = Pieces::of(text)?;
    let mut drafts = Drafts::new(alloc);
    let mut store = Store::new(alloc);
    while !pieces.are_over() {
        next_store(alloc, &mut pieces, size, true, &mut drafts, &mut store)?;
    }
    Ok(store)
}

/// The summaries of the entries of a text that is read in pieces of this size.
fn summaries_of_pieces(alloc: Global, text: &[u8], size: usize) -> Result<Vec<u8>, Fail> {
    let store = read_in_pieces(alloc, text, size)?;
    let catalogue = catalogue_of(alloc, &store)?;
    summaries(alloc, catalogue.entries())
}

#[test]
fn cut_at_every_line(rt: HostRuntime) -> Result<(), Fail> {
    for (text, wanted) in TEXTS {
        for size in 0..text.len() {
            let all = summaries_of_pieces(rt.alloc(), text, size)?;
            assert!(rt;
                all.as_slice() == *wanted,
                "{size} at {}",
                text.escape_ascii()
            );
        }
    }
    Ok(())
}

#[test]
fn refused_at_every_cut(rt: HostRuntime) {
    for refused in REFUSED {
        for size in 0..refused.0.len() {
            let reported = read_in_pieces(rt.alloc(), refused.0, size).err();
            assert_refused(&rt, reported, refused);
        }
    }
}
