//! How files are laid out and read.

use crate::samples::{CONTEXTS, ONE, ONE_BIG, TWO};
use mo_file::laws::{layout_is_mo_file, one_message_list};
use mo_file::{BuildError, Meter, MoView, Order, Pair, build, compare_key};
use std::alloc::{AllocError, Global};
use std::cmp::Ordering;

/// An original and its translation.
fn pair(alloc: Global, original: &[u8], translation: &[u8]) -> Result<Pair, AllocError> {
    Ok(Pair {
        original: original.to_vec(alloc)?,
        translation: translation.to_vec(alloc)?,
    })
}

/// These originals and translations.
fn pairs(alloc: Global, messages: &[(&[u8], &[u8])]) -> Result<Vec<Pair>, AllocError> {
    let mut pairs = Vec::new(alloc);
    for (original, translation) in messages {
        pairs.push(pair(alloc, original, translation)?)?;
    }
    Ok(pairs)
}

/// The file of these originals and translations.
pub(crate) fn built(
    alloc: Global,
    order: Order,
    messages: &[(&[u8], &[u8])],
) -> Result<Vec<u8>, BuildError> {
    build(alloc, order, &pairs(alloc, messages)?)
}

/// The byte order, the messages, and their file.
type LaidOut = (
    Order,
    &'static [(&'static [u8], &'static [u8])],
    &'static [u8],
);

const LAID_OUT: &[LaidOut] = &[
    (Order::Little, &[(b"a", b"b")], &ONE),
    (Order::Big, &[(b"a", b"b")], &ONE_BIG),
    (Order::Little, &[(b"a", b"2"), (b"b", b"1")], &TWO),
    (
        Order::Little,
        &[(b"\x04x", b"1"), (b"c\x04x", b"2"), (b"x", b"3")],
        &CONTEXTS,
    ),
];

/// Whether messages have this file.
fn are_laid_out(alloc: Global, (order, messages, file): LaidOut) -> bool {
    match built(alloc, order, messages) {
        Ok(bytes) => bytes.as_slice() == file,
        Err(_) => false,
    }
}

#[test]
fn lays_out_messages(rt: HostRuntime) {
    for (row, laid_out) in LAID_OUT.iter().enumerate() {
        assert!(rt; are_laid_out(rt.alloc(), *laid_out), "row {row}");
    }
}

#[test]
fn refuses_pairs_out_of_order(rt: HostRuntime) {
    let twice = built(rt.alloc(), Order::Little, &[(b"a", b"1"), (b"a\0as", b"2")]);
    assert!(rt; matches!(twice, Err(BuildError::NotSorted)));
}

/// Whether a file has the strings of `CONTEXTS`, and its keys compare as they should, each at the
/// cost of one.
fn has_contexts(bytes: &[u8]) -> bool {
    let mut meter = Meter::new();
    let Ok(view) = MoView::open(bytes, &mut meter) else {
        return false;
    };
    if view.len() != 3 || meter.count() != 2 {
        return false;
    }
    let original = view.original(1, &mut meter);
    let second = view.compare(1, Some(b"c"), b"x", &mut meter);
    let third = view.compare(2, Some(b"c"), b"x", &mut meter);
    original == b"c\x04x".as_slice()
        && view.translation(2) == b"3".as_slice()
        && second == Ordering::Equal
        && third == Ordering::Greater
        && meter.count() == 5
}

#[test]
fn reads_a_file(rt: HostRuntime) {
    assert!(rt; has_contexts(&CONTEXTS));
}

/// A key, the context and the msgid that it is compared with, and the outcome.
type Key = (
    &'static [u8],
    Option<&'static [u8]>,
    &'static [u8],
    Ordering,
);

const KEYS: &[Key] = &[
    (b"x", None, b"x", Ordering::Equal),
    (b"x", None, b"xy", Ordering::Less),
    (b"c\x04x", Some(b"c"), b"x", Ordering::Equal),
    (b"c\x04x", Some(b""), b"x", Ordering::Greater),
    (b"c", Some(b"c"), b"", Ordering::Less),
    (b"c\x05", Some(b"c"), b"x", Ordering::Greater),
    (b"b\x04x", Some(b"cc"), b"x", Ordering::Less),
];

/// Whether a key compares so.
fn compares_as((key, context, id, wanted): Key) -> bool {
    compare_key(key, context, id) == wanted
}

#[test]
fn compares_keys(rt: HostRuntime) {
    for (row, key) in KEYS.iter().enumerate() {
        assert!(rt; compares_as(*key), "row {row}");
    }
}

const ORDERS: &[(&[u8], Option<Order>)] = &[
    (&ONE, Some(Order::Little)),
    (&ONE_BIG, Some(Order::Big)),
    (b"msgid", None),
];

#[test]
fn reports_the_byte_order(rt: HostRuntime) {
    for (file, order) in ORDERS {
        assert!(rt; Order::of_file(file) == *order, "{file:?}");
    }
}

/// The laws are calls without an effect.
#[test]
fn knows_the_laws(_rt: HostRuntime) {
    layout_is_mo_file();
    one_message_list();
}
