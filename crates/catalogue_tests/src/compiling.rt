//! Texts that are compiled, with the answers of look-ups in their files.
ghost use Rattle.std.specs.Prelude.{◌<◌, ◌^◌, length};

use crate::assertions::{Refused, assert_at, assert_refused};
use crate::texts::FUZZY_AND_OBSOLETE;
use mo_file::{Meter, Order};
use mo_lookup::Catalog;
use po_compile::{Compiled, Options, compile, compile_all};
use po_syntax::PoFault;
use std::alloc::Global;
use std::process::Abort;

const LITTLE: Options = Options {
    use_fuzzy: false,
    order: Order::Little,
};

const BIG: Options = Options {
    use_fuzzy: false,
    order: Order::Big,
};

const WITH_FUZZY: Options = Options {
    use_fuzzy: true,
    order: Order::Little,
};

const EMPTY_FILE: &[u8] = b"\xde\x12\x04\x95\0\0\0\0\0\0\0\0\x1c\0\0\0\x1c\0\0\0\0\0\0\0\x1c\0\0\0";

const ONE_MESSAGE: &[u8] = b"msgid \"a\"\nmsgstr \"b\"\n";

const OTHER_MESSAGE: &[u8] = b"msgid \"c\"\nmsgstr \"d\"\n";

const THREE_CONTEXTS: &[u8] =
    b"msgctxt \"\"\nmsgid \"x\"\nmsgstr \"1\"\n\nmsgctxt \"c\"\nmsgid \"x\"\nmsgstr \"2\"\n\nmsgid \"x\"\nmsgstr \"3\"\n";

const ONE_CONTEXT: &[u8] = b"msgctxt \"a\"\nmsgid \"b\"\nmsgstr \"c\"\n";

const PLURAL: &[u8] =
    b"msgid \"\"\nmsgstr \"Plural-Forms: nplurals=3; plural=n;\\n\"\n\nmsgid \"f\"\nmsgid_plural \"fs\"\nmsgstr[0] \"a\"\nmsgstr[1] \"\"\n";

const FIRST_HEADER: &[u8] = b"msgid \"\"\nmsgstr \"X: first\\n\"\n\nmsgid \"a\"\nmsgstr \"b\"\n";

const SECOND_HEADER: &[u8] = b"msgid \"\"\nmsgstr \"X: second\\n\"\n\nmsgid \"c\"\nmsgstr \"d\"\n";

/// What a text without a fault is compiled to.
fn compiled(rt: &impl Abort, alloc: Global, text: &[u8], options: Options) -> Compiled {
    match compile(alloc, text, options) {
        Ok(compiled) => compiled,
        Err(error) => panic!(rt; "refused at line {}", error.line),
    }
}

/// The context, msgid and msgid_plural with its count that are looked up, the answer, and whether
/// it was found.
type Look = (
    Option<&'static [u8]>,
    &'static [u8],
    Option<(&'static [u8], u64)>,
    &'static [u8],
    bool,
);

/// Texts with their options and a look-up.
const LOOKS: &[(&[u8], Options, Look)] = &[
    (b"", LITTLE, (None, b"x", None, b"x", false)),
    (ONE_MESSAGE, LITTLE, (None, b"a", None, b"b", true)),
    (ONE_MESSAGE, LITTLE, (None, b"z", None, b"z", false)),
    (ONE_MESSAGE, BIG, (None, b"a", None, b"b", true)),
    (THREE_CONTEXTS, LITTLE, (Some(b""), b"x", None, b"1", true)),
    (THREE_CONTEXTS, LITTLE, (Some(b"c"), b"x", None, b"2", true)),
    (THREE_CONTEXTS, LITTLE, (None, b"x", None, b"3", true)),
    (FUZZY_AND_OBSOLETE, LITTLE, (None, b"a", None, b"A", true)),
    (FUZZY_AND_OBSOLETE, LITTLE, (None, b"b", None, b"b", false)),
    (
        FUZZY_AND_OBSOLETE,
        WITH_FUZZY,
        (None, b"b", None, b"B", true),
    ),
    (
        b"msgid \"a\"\nmsgstr \"\\101\\x41\\xc3\\xa9\"\n",
        LITTLE,
        (None, b"a", None, b"AA\xc3\xa9", true),
    ),
    (
        b"msgid \"a\"\nmsgstr \"\\xc3\" \"\\xa9\"\n",
        LITTLE,
        (None, b"a", None, b"\xc3\xa9", true),
    ),
    (
        ONE_CONTEXT,
        LITTLE,
        (None, b"a\x04b", None, b"a\x04b", false),
    ),
    (ONE_CONTEXT, LITTLE, (Some(b"a"), b"b", None, b"c", true)),
    (PLURAL, LITTLE, (None, b"f", Some((b"fs", 0)), b"a", true)),
    (PLURAL, LITTLE, (None, b"f", Some((b"fs", 1)), b"", true)),
    (PLURAL, LITTLE, (None, b"f", Some((b"fs", 2)), b"a", true)),
    (PLURAL, LITTLE, (None, b"f", Some((b"fs", 3)), b"a", true)),
];

/// Whether a look-up in a file gives its answer.
fn answers(bytes: &[u8], look: &Look) -> bool {
    let (context, id, plural, text, found) = look;
    match Catalog::open(bytes, &mut Meter::new()) {
        Ok(catalog) => {
            let answer = catalog.look(*context, id, *plural, &mut Meter::new());
            answer.text == *text && answer.found == *found
        }
        Err(_) => false,
    }
}

#[test]
fn look_ups(rt: HostRuntime) {
    for (text, options, look) in LOOKS {
        let file = compiled(&rt, rt.alloc(), text, *options);
        assert_at(&rt, answers(&file.bytes, look), look.3);
    }
}

/// Texts that are refused, with the fault and its line.
const REFUSED: &[Refused] = &[
    (b"msgid \"a\"\nmsgstr \"\\xff\"\n", PoFault::NotUtf8, 1),
    (b"msgid \"a\"\nmsgstr \"\\0\"\n", PoFault::ForbiddenByte, 2),
    (b"msgid \"a\"\nmsgstr \"\\q\"\n", PoFault::BadEscape, 2),
    (b"msgid \"a\"\nmsgstr \"\\400\"\n", PoFault::BadEscape, 2),
    (b"msgid \"a\"\nmsgstr \"a\n", PoFault::UnterminatedString, 2),
    (
        b"msgid \"a\"\nmsgstr \"A\"\nmsgid \"a\"\nmsgstr \"B\"\n",
        PoFault::Duplicate(1),
        3,
    ),
    (
        b"msgid \"a\"\nmsgstr \"A\"\n\n# x\nmsgid \"a\"\nmsgstr \"B\"\n",
        PoFault::Duplicate(1),
        5,
    ),
];

#[test]
fn refused(rt: HostRuntime) {
    for refused in REFUSED {
        assert_refused(&rt, compile(rt.alloc(), refused.0, LITTLE).err(), refused);
    }
}

/// What texts without a fault are compiled to, joined.
fn joined(rt: &impl Abort, alloc: Global, texts: &[&[u8]]) -> Compiled
    requires { length texts.now < 2 ^ 32 }
{
    match compile_all(alloc, texts, LITTLE) {
        Ok(compiled) => compiled,
        Err(error) => panic!(rt; "refused at line {}", error.error.line),
    }
}

#[test]
fn no_input(rt: HostRuntime) {
    let none = joined(&rt, rt.alloc(), &[]);
    assert!(rt; none.bytes.as_slice() == EMPTY_FILE);
}

#[test]
fn empty_text(rt: HostRuntime) {
    let empty = compiled(&rt, rt.alloc(), b"", LITTLE);
    assert!(rt; empty.n == 0 && empty.bytes.as_slice() == EMPTY_FILE);
}

/// The two messages of `ONE_MESSAGE` and `OTHER_MESSAGE`.
const TWO_FILE: &[u8] =
    b"\xde\x12\x04\x95\0\0\0\0\x02\0\0\0\x1c\0\0\0\x2c\0\0\0\0\0\0\0\x3c\0\0\0\x01\0\0\0\x3c\0\0\0\x01\0\0\0\x3e\0\0\0\x01\0\0\0\x40\0\0\0\x01\0\0\0\x42\0\0\0a\0c\0b\0d\0";

#[test]
fn two_inputs(rt: HostRuntime) {
    let both = joined(&rt, rt.alloc(), &[ONE_MESSAGE, OTHER_MESSAGE]);
    assert!(rt; both.n == 2 && both.bytes.as_slice() == TWO_FILE && both.stats.translated == 2);
}

/// The header of the first of two inputs.
const FIRST_LOOK: Look = (None, b"", None, b"X: first\n", true);

#[test]
fn two_headers(rt: HostRuntime) {
    let headed = joined(&rt, rt.alloc(), &[FIRST_HEADER, SECOND_HEADER]);
    assert!(rt; headed.n == 3);
    assert!(rt; answers(&headed.bytes, &FIRST_LOOK));
}
