//! The statistics of catalogues, their duplicates, and how they are joined.

use crate::assertions::{assert_at, assert_fault, assert_text};
use crate::summary::push_summary;
use po_catalog::{
    Catalogue, JoinError, Stats, duplicates, joined, joined_duplicates, read, statistics,
};
use po_syntax::{PoError, PoFault};
use std::alloc::Global;
use std::process::Abort;
use std::test::Fail;

/// The catalogue of a text that has no fault.
fn catalogue(rt: &impl Abort, alloc: Global, text: &[u8]) -> Catalogue {
    match read(alloc, text) {
        Ok(catalogue) => catalogue,
        Err(error) => panic!(rt; "refused at line {}", error.line),
    }
}

/// A translated, a fuzzy and an untranslated message.
const HEADED_ONE_EACH: &[u8] =
    b"#, fuzzy\nmsgid \"\"\nmsgstr \"X\"\n\nmsgid \"a\"\nmsgstr \"A\"\n\n#, fuzzy\nmsgid \"b\"\nmsgstr \"B\"\n\nmsgid \"c\"\nmsgstr \"\"\n\n#~ msgid \"d\"\n#~ msgstr \"D\"\n";

/// Numbers of translated, fuzzy and untranslated messages, with their line.
type Line = (u64, u64, u64, &'static [u8]);

const LINES: &[Line] = &[
    (0, 0, 0, b"0 translated messages.\n"),
    (2, 0, 0, b"2 translated messages.\n"),
    (
        1,
        1,
        1,
        b"1 translated message, 1 fuzzy translation, 1 untranslated message.\n",
    ),
    (
        2,
        0,
        3,
        b"2 translated messages, 3 untranslated messages.\n",
    ),
];

/// Whether numbers have their line.
fn has_line(alloc: Global, line: &Line) -> Result<bool, Fail> {
    let (translated, fuzzy, untranslated, wanted) = line;
    let stats = Stats {
        translated: *translated,
        fuzzy: *fuzzy,
        untranslated: *untranslated,
    };
    Ok(stats.line(alloc)?.as_slice() == *wanted)
}

#[test]
fn statistics_lines(rt: HostRuntime) -> Result<(), Fail> {
    for row in LINES {
        assert_at(&rt, has_line(rt.alloc(), row)?, row.3);
    }
    Ok(())
}

#[test]
fn statistics_of_texts(rt: HostRuntime) {
    for (text, each) in [(b"".as_slice(), 0), (HEADED_ONE_EACH, 1)] {
        let wanted = Stats {
            translated: each,
            fuzzy: each,
            untranslated: each,
        };
        assert!(rt; statistics(&catalogue(&rt, rt.alloc(), text)) == wanted);
    }
}

const ONE_MESSAGE: &[u8] = b"msgid \"a\"\nmsgstr \"A\"\n";

const HEADED: &[u8] = b"msgid \"\"\nmsgstr \"X\"\n\nmsgid \"a\"\nmsgstr \"A\"\n";

const REPEATED: &[u8] = b"msgid \"a\"\nmsgstr \"A\"\n\n# x\nmsgid \"a\"\nmsgstr \"B\"\n";

/// The fault of `REPEATED`.
const WITHIN: PoError = PoError {
    kind: PoFault::Duplicate(1),
    line: 5,
};

/// Texts with the number of their entries and the fault of a duplicate. The last three don't repeat
/// the message `a`: an entry has another context, or is obsolete.
const WITHIN_A_TEXT: &[(&[u8], usize, Option<PoError>)] = &[
    (ONE_MESSAGE, 1, None),
    (REPEATED, 2, Some(WITHIN)),
    (
        b"msgid \"a\"\nmsgstr \"A\"\n\n# x\nmsgctxt \"c\"\nmsgid \"a\"\nmsgstr \"B\"\n",
        2,
        None,
    ),
    (
        b"msgid \"a\"\nmsgstr \"A\"\n\n# x\n#~ msgid \"a\"\n#~ msgstr \"B\"\n",
        2,
        None,
    ),
    (
        b"msgid \"a\"\nmsgstr \"A\"\n\nmsgctxt \"\"\nmsgid \"a\"\nmsgstr \"A\"\n",
        2,
        None,
    ),
];

#[test]
fn duplicates_within_a_text(rt: HostRuntime) {
    for (text, length, wanted) in WITHIN_A_TEXT {
        let read = catalogue(&rt, rt.alloc(), text);
        assert_at(&rt, read.entries().len() == *length, text);
        assert_fault(&rt, duplicates(rt.alloc(), &read).err(), *wanted, text);
    }
}

/// Two catalogues of the same text.
fn twice(rt: &impl Abort, alloc: Global, text: &[u8]) -> Result<Vec<Catalogue>, Fail> {
    let mut both = Vec::new(alloc);
    for _ in 0..2 {
        both.push(catalogue(rt, alloc, text))?;
    }
    Ok(both)
}

#[test]
fn duplicates_across_texts(rt: HostRuntime) -> Result<(), Fail> {
    let across = JoinError {
        input: 1,
        first_input: 0,
        error: PoError {
            kind: PoFault::Duplicate(1),
            line: 1,
        },
    };
    let both = twice(&rt, rt.alloc(), ONE_MESSAGE)?;
    assert_eq!(rt; both.len(), 2);
    assert!(rt; joined_duplicates(rt.alloc(), &both).err() == Some(across));
    Ok(())
}

#[test]
fn entries_of_two_inputs(rt: HostRuntime) -> Result<(), Fail> {
    let both = twice(&rt, rt.alloc(), HEADED)?;
    assert_eq!(rt; both.len(), 2);
    let mut lines = Vec::new(rt.alloc());
    for joined in &joined(rt.alloc(), &both)? {
        push_summary(&mut lines, joined.entry)?;
    }
    let wanted = b"||||-;-;-;|-||-|X;.\n||||-;-;-;|-|a|-|A;.\n||||-;-;-;|-|a|-|A;.\n";
    assert_text(&rt, &lines, wanted);
    Ok(())
}
