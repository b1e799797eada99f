//! The calls on PO texts, entries, catalogues and MO files.

use crate::outcomes::{Outcome, is_memory, of_bytes};
use mo_file::{BuildError, Order, Pair, build};
use msgunfmt::{UnformatError, unformat};
use po_catalog::{Catalogue, Entry, Stats, duplicates, joined_duplicates, read, write};
use po_compile::{Options, compile, compile_all};
use po_syntax::{PoError, PoFault, items, quote};
use po_tools::{MergeOptions, Named, Selection, merge, select};
use std::alloc::Global;

pub(crate) const ONE_MESSAGE: &[u8] = b"msgid \"a\"\nmsgstr \"b\"\n";

pub(crate) const ONE_FILE: &[u8] =
    b"\xde\x12\x04\x95\0\0\0\0\x01\0\0\0\x1c\0\0\0\x24\0\0\0\0\0\0\0\x2c\0\0\0\x01\0\0\0\x2c\0\0\0\x01\0\0\0\x2e\0\0\0a\0b\0";

/// A fuzzy header, and a translated, a fuzzy, an untranslated and an obsolete message.
pub(crate) const FUZZY_AND_OBSOLETE: &[u8] =
    b"#, fuzzy\nmsgid \"\"\nmsgstr \"Content-Type: text/plain; charset=UTF-8\\n\"\n\nmsgid \"a\"\nmsgstr \"A\"\n\n#, fuzzy\nmsgid \"b\"\nmsgstr \"B\"\n\nmsgid \"c\"\nmsgstr \"\"\n\n#~ msgid \"d\"\n#~ msgstr \"D\"\n";

/// One msgid in the empty context, in the context `c` and without a context.
const CONTEXTS: &[u8] =
    b"msgctxt \"\"\nmsgid \"x\"\nmsgstr \"1\"\n\nmsgctxt \"c\"\nmsgid \"x\"\nmsgstr \"2\"\n\nmsgid \"x\"\nmsgstr \"3\"\n";

pub(crate) const ONLY_FUZZY_TEXT: &[u8] =
    b"#, fuzzy\nmsgid \"\"\nmsgstr \"Content-Type: text/plain; charset=UTF-8\\n\"\n\n#, fuzzy\nmsgid \"b\"\nmsgstr \"B\"\n";

pub(crate) const DUPLICATE: &[u8] =
    b"msgid \"a\"\nmsgstr \"A\"\n\n# x\nmsgid \"a\"\nmsgstr \"B\"\n";

pub(crate) const A: &[u8] = b"msgid \"x\"\nmsgstr \"p\"\n";

pub(crate) const B: &[u8] = b"msgid \"x\"\nmsgstr \"q\"\n";

pub(crate) const MERGED: &[u8] =
    b"#, fuzzy\nmsgid \"x\"\nmsgstr \"\"\n\"#-#-#-#-#  A.po  #-#-#-#-#\\n\"\n\"p\\n\"\n\"#-#-#-#-#  B.po  #-#-#-#-#\\n\"\n\"q\\n\"\n";

pub(crate) const ONLY_FUZZY: Selection = Selection {
    translated: false,
    untranslated: false,
    no_fuzzy: false,
    only_fuzzy: true,
    no_obsolete: false,
    only_obsolete: false,
    set_fuzzy: false,
    clear_fuzzy: false,
    set_obsolete: false,
    clear_obsolete: false,
    clear_previous: false,
    empty: false,
};

pub(crate) const MERGE: MergeOptions = MergeOptions {
    more_than: 0,
    less_than: None,
    unique: false,
    use_first: false,
};

const OPTIONS: Options = Options {
    use_fuzzy: false,
    order: Order::Little,
};

/// What comes of the row of this name.
pub(crate) fn outcome(alloc: Global, row: &str) -> Outcome {
    match row {
        "items" => items_of(alloc),
        "quote" => quoted(alloc),
        "quote-after-text" => quoted_after_text(alloc),
        "read" => read_text(alloc, FUZZY_AND_OBSOLETE, 5),
        "read-contexts" => read_text(alloc, CONTEXTS, 3),
        "write" => written(alloc),
        "duplicates" => repeated(alloc),
        "joined_duplicates" => repeated_across(alloc),
        "Stats::line" => statistics(alloc),
        "build" => built(alloc),
        "compile" => compiled(alloc, ONE_MESSAGE, 1, 48),
        "compile-contexts" => compiled(alloc, CONTEXTS, 3, 91),
        "compile_all" => all_compiled(alloc),
        "unformat" => unformatted(alloc),
        "select" => selected(alloc),
        "merge" => merged(alloc),
        "Entry::message" => message(alloc),
        "Entry::copy" => copied(alloc),
        "Catalogue::push" => pushed(alloc),
        _ => Outcome::NoRow,
    }
}

// Each string is one item with its keyword, and each of its escapes is a byte of its own.
fn items_of(alloc: Global) -> Outcome {
    let text = b"msgid \"\\101\\x41\\xc3\\xa9\"\nmsgstr \"\\xc3\" \"\\xa9\"\n";
    match items(alloc, text) {
        Ok(items) => Outcome::Answered(items.len() == 5),
        Err(error) => Outcome::OutOfMemory(is_memory(error)),
    }
}

fn quoted(alloc: Global) -> Outcome {
    let mut out = Vec::new(alloc);
    match quote(b"a\nb", &mut out) {
        Ok(()) => Outcome::Answered(out.as_slice() == b"\"a\\nb\"".as_slice()),
        Err(error) => Outcome::OutOfMemory(is_memory(error) && out.is_empty()),
    }
}

fn quoted_after_text(alloc: Global) -> Outcome {
    let mut out = Vec::new(alloc);
    if out.extend_from_slice(b"x").is_err() {
        return Outcome::Unready;
    }
    match quote(b"a\n\"b\" and so on, past what there is room for", &mut out) {
        Ok(()) => Outcome::Answered(
            out.as_slice()
                == b"x\"a\\n\\\"b\\\" and so on, past what there is room for\"".as_slice(),
        ),
        Err(error) => Outcome::OutOfMemory(is_memory(error) && out.as_slice() == b"x".as_slice()),
    }
}

fn read_text(alloc: Global, text: &[u8], length: usize) -> Outcome {
    match read(alloc, text) {
        Ok(catalogue) => Outcome::Answered(catalogue.entries().len() == length),
        Err(error) => Outcome::OutOfMemory(is_memory(error)),
    }
}

fn written(alloc: Global) -> Outcome {
    let Ok(entry) = Entry::message(alloc, None, b"k", None, &[b"a\nb"]) else {
        return Outcome::Unready;
    };
    let mut catalogue = Catalogue::new(alloc);
    if catalogue.push(entry).is_err() {
        return Outcome::Unready;
    }
    of_bytes(
        write(alloc, &catalogue),
        b"msgid \"k\"\nmsgstr \"\"\n\"a\\n\"\n\"b\"\n",
    )
}

fn repeated(alloc: Global) -> Outcome {
    let Ok(catalogue) = read(alloc, DUPLICATE) else {
        return Outcome::Unready;
    };
    let wanted = PoError {
        kind: PoFault::Duplicate(1),
        line: 5,
    };
    match duplicates(alloc, &catalogue) {
        Ok(()) => Outcome::Answered(false),
        Err(error) if error == wanted => Outcome::Answered(true),
        Err(error) => Outcome::OutOfMemory(is_memory(error) && catalogue.entries().len() == 2),
    }
}

fn repeated_across(alloc: Global) -> Outcome {
    let (Ok(first), Ok(second)) = (read(alloc, ONE_MESSAGE), read(alloc, ONE_MESSAGE)) else {
        return Outcome::Unready;
    };
    match joined_duplicates(alloc, &[first, second]) {
        Ok(()) => Outcome::Answered(false),
        Err(error) if error.error.kind == PoFault::OutOfMemory => {
            Outcome::OutOfMemory(error.input == 0 && is_memory(error.error))
        }
        Err(error) => Outcome::Answered(error.input == 1 && error.error.line == 1),
    }
}

fn statistics(alloc: Global) -> Outcome {
    let stats = Stats {
        translated: 1,
        fuzzy: 1,
        untranslated: 1,
    };
    of_bytes(
        stats.line(alloc),
        b"1 translated message, 1 fuzzy translation, 1 untranslated message.\n",
    )
}

fn built(alloc: Global) -> Outcome {
    let (Ok(original), Ok(translation)) = (b"a".to_vec(alloc), b"b".to_vec(alloc)) else {
        return Outcome::Unready;
    };
    match build(
        alloc,
        Order::Little,
        &[Pair {
            original,
            translation,
        }],
    ) {
        Ok(bytes) => Outcome::Answered(bytes.as_slice() == ONE_FILE),
        Err(error) => Outcome::OutOfMemory(error == BuildError::OutOfMemory),
    }
}

fn compiled(alloc: Global, text: &[u8], n: u32, length: usize) -> Outcome {
    match compile(alloc, text, OPTIONS) {
        Ok(compiled) => Outcome::Answered(compiled.n == n && compiled.bytes.len() == length),
        Err(error) => Outcome::OutOfMemory(is_memory(error)),
    }
}

fn all_compiled(alloc: Global) -> Outcome {
    match compile_all(
        alloc,
        &[ONE_MESSAGE, b"msgid \"c\"\nmsgstr \"d\"\n"],
        OPTIONS,
    ) {
        Ok(compiled) => Outcome::Answered(compiled.n == 2 && compiled.bytes.len() == 68),
        Err(error) => Outcome::OutOfMemory(error.input == 0 && is_memory(error.error)),
    }
}

fn unformatted(alloc: Global) -> Outcome {
    match unformat(alloc, ONE_FILE) {
        Ok(text) => Outcome::Answered(text.as_slice() == ONE_MESSAGE),
        Err(error) => Outcome::OutOfMemory(error == UnformatError::OutOfMemory),
    }
}

fn selected(alloc: Global) -> Outcome {
    let Ok(catalogue) = read(alloc, FUZZY_AND_OBSOLETE) else {
        return Outcome::Unready;
    };
    match select(catalogue, &ONLY_FUZZY) {
        Ok(catalogue) => Outcome::Answered(catalogue.entries().len() == 2),
        Err(error) => Outcome::OutOfMemory(is_memory(error)),
    }
}

fn merged(alloc: Global) -> Outcome {
    let (Ok(first), Ok(second)) = (read(alloc, A), read(alloc, B)) else {
        return Outcome::Unready;
    };
    let inputs = [
        Named {
            name: "A.po",
            catalogue: first,
        },
        Named {
            name: "B.po",
            catalogue: second,
        },
    ];
    match merge(alloc, &inputs, &MERGE) {
        Ok(catalogue) => Outcome::Answered(catalogue.entries().len() == 1),
        Err(error) => Outcome::OutOfMemory(is_memory(error)),
    }
}

fn message(alloc: Global) -> Outcome {
    match Entry::message(alloc, None, b"a", None, &[b"b"]) {
        Ok(entry) => Outcome::Answered(entry.id() == b"a".as_slice() && entry.forms().len() == 1),
        Err(error) => Outcome::OutOfMemory(is_memory(error)),
    }
}

fn copied(alloc: Global) -> Outcome {
    let Ok(entry) = Entry::message(alloc, None, b"a", None, &[b"b"]) else {
        return Outcome::Unready;
    };
    match entry.copy(alloc) {
        Ok(copy) => Outcome::Answered(copy == entry),
        Err(error) => Outcome::OutOfMemory(is_memory(error) && entry.id() == b"a".as_slice()),
    }
}

fn pushed(alloc: Global) -> Outcome {
    let Ok(entry) = Entry::message(alloc, None, b"a", None, &[b"b"]) else {
        return Outcome::Unready;
    };
    let mut catalogue = Catalogue::new(alloc);
    match catalogue.push(entry) {
        Ok(()) => Outcome::Answered(catalogue.entries().len() == 1),
        Err((entry, error)) => Outcome::OutOfMemory(
            is_memory(error) && catalogue.entries().is_empty() && entry.id() == b"a".as_slice(),
        ),
    }
}
