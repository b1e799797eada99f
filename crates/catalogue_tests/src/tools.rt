//! What is written of selected and of merged entries, beside texts that are spelled out by hand.

use crate::assertions::assert_text;
use po_catalog::{read, write};
use po_syntax::PoError;
use po_tools::{MergeOptions, Named, Selection, merge, select};
use std::alloc::Global;

/// A header, a fuzzy, an untranslated, a translated and an obsolete entry.
const MIXED: &[u8] =
    b"msgid \"\"\nmsgstr \"Content-Type: text/plain; charset=UTF-8\\n\"\n\n#, fuzzy\nmsgid \"f\"\nmsgstr \"F\"\n\nmsgid \"u\"\nmsgstr \"\"\n\n# kept\nmsgid \"t\"\nmsgstr \"T\"\n\n#~ msgid \"o\"\n#~ msgstr \"O\"\n";

const NOTHING: Selection = Selection {
    translated: false,
    untranslated: false,
    no_fuzzy: false,
    only_fuzzy: false,
    no_obsolete: false,
    only_obsolete: false,
    set_fuzzy: false,
    clear_fuzzy: false,
    set_obsolete: false,
    clear_obsolete: false,
    clear_previous: false,
    empty: false,
};

const LIVE_AND_CLEAN: Selection = Selection {
    translated: true,
    no_fuzzy: true,
    no_obsolete: true,
    ..NOTHING
};

const OBSOLETE_AND_FUZZY: Selection = Selection {
    only_obsolete: true,
    set_fuzzy: true,
    clear_obsolete: true,
    ..NOTHING
};

/// Selections, each with what is written of `MIXED`.
const SELECTED: &[(Selection, &[u8])] = &[
    (NOTHING, MIXED),
    (
        LIVE_AND_CLEAN,
        b"msgid \"\"\nmsgstr \"Content-Type: text/plain; charset=UTF-8\\n\"\n\n# kept\nmsgid \"t\"\nmsgstr \"T\"\n",
    ),
    (
        OBSOLETE_AND_FUZZY,
        b"#, fuzzy\nmsgid \"\"\nmsgstr \"Content-Type: text/plain; charset=UTF-8\\n\"\n\n#, fuzzy\nmsgid \"o\"\nmsgstr \"O\"\n",
    ),
];

const JOINED: MergeOptions = MergeOptions {
    more_than: 0,
    less_than: None,
    unique: false,
    use_first: false,
};

const FIRST: MergeOptions = MergeOptions {
    use_first: true,
    ..JOINED
};

const COMMON: MergeOptions = MergeOptions {
    more_than: 1,
    ..JOINED
};

const A: &[u8] = b"# one\n#: a.c:1\nmsgid \"x\"\nmsgstr \"p\"\n\nmsgid \"only\"\nmsgstr \"A\"\n";

const B: &[u8] = b"# two\n#: a.c:1 b.c:2\nmsgid \"x\"\nmsgstr \"q\"\n";

/// Options, each with what is written of `A` and `B` together.
const MERGED: &[(MergeOptions, &[u8])] = &[
    (
        JOINED,
        b"# one\n# two\n#: a.c:1 b.c:2\n#, fuzzy\nmsgid \"x\"\nmsgstr \"\"\n\"#-#-#-#-#  A.po  #-#-#-#-#\\n\"\n\"p\\n\"\n\"#-#-#-#-#  B.po  #-#-#-#-#\\n\"\n\"q\\n\"\n\nmsgid \"only\"\nmsgstr \"A\"\n",
    ),
    (
        FIRST,
        b"# one\n#: a.c:1\nmsgid \"x\"\nmsgstr \"p\"\n\nmsgid \"only\"\nmsgstr \"A\"\n",
    ),
    (
        COMMON,
        b"# one\n# two\n#: a.c:1 b.c:2\n#, fuzzy\nmsgid \"x\"\nmsgstr \"\"\n\"#-#-#-#-#  A.po  #-#-#-#-#\\n\"\n\"p\\n\"\n\"#-#-#-#-#  B.po  #-#-#-#-#\\n\"\n\"q\\n\"\n",
    ),
];

/// What is written of the selected entries of `MIXED`.
fn selected_text(alloc: Global, selection: &Selection) -> Result<Vec<u8>, PoError> {
    write(alloc, &select(read(alloc, MIXED)?, selection)?)
}

/// What is written of `A` and `B`, merged.
fn merged_text(alloc: Global, options: &MergeOptions) -> Result<Vec<u8>, PoError> {
    let inputs = [
        Named {
            name: "A.po",
            catalogue: read(alloc, A)?,
        },
        Named {
            name: "B.po",
            catalogue: read(alloc, B)?,
        },
    ];
    write(alloc, &merge(alloc, &inputs, options)?)
}

#[test]
fn writes_what_is_selected(rt: HostRuntime) -> Result<(), PoError> {
    for (selection, text) in SELECTED {
        assert_text(&rt, &selected_text(rt.alloc(), selection)?, text);
    }
    Ok(())
}

#[test]
fn writes_what_is_merged(rt: HostRuntime) -> Result<(), PoError> {
    for (options, text) in MERGED {
        assert_text(&rt, &merged_text(rt.alloc(), options)?, text);
    }
    Ok(())
}
