//! Answers that were worked out by hand.

ghost use Rattle.std.specs.Prelude.{◌<◌, ◌^◌, length};

mod letters;

use crate::files::built;
use crate::samples::{EMPTY, ONE};
use letters::Letters;
use mo_file::{Meter, Order};
use mo_lookup::{Catalog, Chain, Keys, Reason, Source, find};
use std::test::Fail;

/// The context, the msgid, the plural and its count, and of the answer the text, whether it was
/// found, the least and the most comparisons, and the steps.
type Query = (
    Option<&'static [u8]>,
    &'static [u8],
    Option<(&'static [u8], u64)>,
    &'static [u8],
    bool,
    (u32, u32),
    u32,
);

/// How many messages a file has, the most comparisons of opening it, the source of its rule, and
/// queries to it.
type Opened = (u32, u64, Source, &'static [Query]);

/// The index of the first query that isn't answered as it says, or their number where the file
/// isn't as it should be.
fn first_wrong(bytes: &[u8], (count, most, source, queries): Opened) -> Option<usize> {
    let mut meter = Meter::new();
    let mut catalog = Catalog::empty();
    if catalog.reopen(bytes, &mut meter).is_err() {
        return Some(queries.len());
    }
    if catalog.len() != count || meter.count() > most || catalog.rule().source() != source {
        return Some(queries.len());
    }
    for (index, query) in queries.iter().enumerate() {
        let (context, id, plural, text, found, (least, most), steps) = *query;
        let answer = catalog.look(context, id, plural, &mut Meter::new());
        let counted = least <= answer.comparisons && answer.comparisons <= most;
        if answer.text != text || answer.found != found || !counted || answer.steps != steps {
            return Some(index);
        }
    }
    None
}

/// The source where no header names a rule.
const NO_NUMBER: Source = Source::Default(Reason::NoNumber);

const OF_EMPTY: &[Query] = &[(None, b"x", None, b"x", false, (0, 0), 0)];

const OF_ONE: &[Query] = &[
    (None, b"a", None, b"b", true, (1, 1), 0),
    (None, b"z", None, b"z", false, (0, 1), 0),
    (None, b"a", Some((b"as", 5)), b"b", true, (0, 1), 3),
    (None, b"f", Some((b"fs", 1)), b"f", false, (0, 1), 0),
    (None, b"f", Some((b"fs", 0)), b"fs", false, (0, 1), 0),
    (None, b"f", Some((b"fs", 99)), b"fs", false, (0, 1), 0),
];

/// Files that were laid out by hand.
const LAID_OUT: &[(&[u8], Opened)] = &[
    (&EMPTY, (0, 0, NO_NUMBER, OF_EMPTY)),
    (&ONE, (1, 1, NO_NUMBER, OF_ONE)),
];

#[test]
fn one_message_or_none(rt: HostRuntime) {
    for (bytes, opened) in LAID_OUT {
        assert_eq!(rt; first_wrong(bytes, *opened), None);
    }
}

/// How many comparisons are allowed among so many keys.
const BOUNDS: &[(usize, u32)] = &[(1, 1), (2, 2), (3, 2), (4, 3), (7, 3), (8, 4)];

/// The index of a letter among so many keys.
fn index_of(letter: u8, count: usize) -> Option<u32> {
    let index = letter.saturating_sub(b'b') / 2;
    if letter % 2 == 0 && usize::from(index) < count {
        Some(u32::from(index))
    } else {
        None
    }
}

#[test]
fn a_search_sees_keys_by_comparing_alone(rt: HostRuntime) {
    for (count, bound) in BOUNDS {
        assert!(rt; *count <= 8);
        for letter in b'a'..=b'q' {
            let mut keys = Letters::new(*count as u32);
            let index = find(&mut keys, None, &[letter]);
            let is_right = index == index_of(letter, *count) && keys.count() <= u64::from(*bound);
            assert!(rt; is_right, "{letter} of {count}");
        }
    }
}

/// A file with a context.
const CONTEXT: &[(&[u8], &[u8])] = &[(b"a\x04b", b"x")];

const OF_CONTEXT: &[Query] = &[
    (None, b"a\x04b", None, b"a\x04b", false, (0, 0), 0),
    (Some(b"a"), b"b", None, b"x", true, (0, 1), 0),
];

/// A file with two of three forms.
const TWO_FORMS: &[(&[u8], &[u8])] = &[(b"", b"nplurals=3; plural=n;"), (b"f\0fs", b"a\0")];

const OF_TWO_FORMS: &[Query] = &[
    (None, b"f", Some((b"fs", 0)), b"a", true, (0, 2), 1),
    (None, b"f", Some((b"fs", 1)), b"", true, (0, 2), 1),
    (None, b"f", Some((b"fs", 2)), b"a", true, (0, 2), 1),
    (None, b"f", Some((b"fs", 3)), b"a", true, (0, 2), 1),
];

/// A file with two forms, and a rule that names none.
const NO_FORMS: &[(&[u8], &[u8])] = &[(b"", b"nplurals=0; plural=0;"), (b"f\0fs", b"a\0b")];

const OF_NO_FORMS: &[Query] = &[
    (None, b"f", Some((b"fs", 0)), b"a", true, (0, 2), 1),
    (None, b"f", Some((b"fs", 1)), b"a", true, (0, 2), 1),
    (None, b"f", Some((b"fs", 2)), b"a", true, (0, 2), 1),
];

/// Files that are built from these messages.
const BUILT: &[(&[(&[u8], &[u8])], Opened)] = &[
    (CONTEXT, (1, 1, NO_NUMBER, OF_CONTEXT)),
    (TWO_FORMS, (2, 2, Source::Header, OF_TWO_FORMS)),
    (NO_FORMS, (2, 2, Source::Header, OF_NO_FORMS)),
];

#[test]
fn contexts_and_forms(rt: HostRuntime) -> Result<(), Fail> {
    for (messages, opened) in BUILT {
        let bytes = built(rt.alloc(), Order::Little, messages)?;
        assert_eq!(rt; first_wrong(&bytes, *opened), None);
    }
    Ok(())
}

/// The msgid, the plural and its count, and of the answer the text, whether it was found, how many
/// catalogues were asked, the least and the most comparisons, and the steps.
type ChainQuery = (
    &'static [u8],
    Option<(&'static [u8], u64)>,
    &'static [u8],
    bool,
    u32,
    (u64, u64),
    u32,
);

/// The index of the first query that the chain doesn't answer as it says.
fn first_wrong_of_chain(members: &[Catalog<'_>], queries: &[ChainQuery]) -> Option<usize>
    requires { length members.now < 2 ^ 32 }
{
    let chain = Chain::new(members);
    for (index, query) in queries.iter().enumerate() {
        let (id, plural, text, found, asked, (least, most), steps) = *query;
        let answer = chain.look(None, id, plural, &mut Meter::new());
        let answered = answer.text == text && answer.found == found && answer.asked == asked;
        let counted = least <= answer.comparisons && answer.comparisons <= most;
        if !answered || !counted || answer.steps != steps {
            return Some(index);
        }
    }
    None
}

const OF_NO_FILE: &[ChainQuery] = &[(b"a", None, b"a", false, 0, (0, 0), 0)];

const SECOND: &[(&[u8], &[u8])] = &[(b"a", b"1"), (b"b", b"2")];

const OF_ONE_AND_SECOND: &[ChainQuery] = &[
    (b"a", None, b"b", true, 1, (1, 1), 0),
    (b"b", None, b"2", true, 2, (0, 3), 0),
    (b"z", None, b"z", false, 2, (0, 3), 0),
    (b"a\x04b", None, b"a\x04b", false, 0, (0, 0), 0),
];

const THIRD: &[(&[u8], &[u8])] = &[(b"", b"nplurals=3; plural=n;"), (b"f\0fs", b"0\x001\x002")];

const OF_ONE_AND_THIRD: &[ChainQuery] = &[(b"f", Some((b"fs", 2)), b"2", true, 2, (0, 3), 1)];

/// The messages of the second file of a chain after `ONE`, and queries to it.
const CHAINS: &[(&[(&[u8], &[u8])], &[ChainQuery])] = &[
    (SECOND, OF_ONE_AND_SECOND),
    (THIRD, OF_ONE_AND_THIRD),
];

/// The index of the first query that the chain of `ONE` and a file doesn't answer as it says, or
/// their number where one of them isn't opened.
fn first_wrong_after_one(bytes: &[u8], queries: &[ChainQuery]) -> Option<usize> {
    let first = Catalog::open(&ONE, &mut Meter::new());
    let second = Catalog::open(bytes, &mut Meter::new());
    match (first, second) {
        (Ok(first), Ok(second)) => first_wrong_of_chain(&[first, second], queries),
        _ => Some(queries.len()),
    }
}

#[test]
fn a_chain_of_none_answers_with_the_msgid(rt: HostRuntime) {
    assert!(rt; first_wrong_of_chain(&[], OF_NO_FILE).is_none());
}

#[test]
fn a_chain_asks_up_to_the_first_that_has_the_message(rt: HostRuntime) -> Result<(), Fail> {
    for (messages, queries) in CHAINS {
        let bytes = built(rt.alloc(), Order::Little, messages)?;
        let wrong = first_wrong_after_one(&bytes, queries);
        assert!(rt; wrong.is_none(), "query {wrong:?}");
    }
    Ok(())
}
