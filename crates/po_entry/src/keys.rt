//! The messages of entries that lie in a store, by their keys there: two of the entries have one
//! key exactly where they are of one message.

ghost use Rattle.std.specs.Prelude.{◌≡◌, IfOk, drop, length, take};
ghost use Rattle.po_entry.specs.Prelude.{digest_of, keys_writes, first_ones, group_numbers, entry_messages, same_message};

use crate::seen_texts::{Seeded, SeenTexts};
use crate::store::Store;
use std::alloc::{AllocError, Global};
use std::hash::{DefaultHasher, Hasher};

/// Cuts off so many, or all where there are fewer.
pub fn split_at_most<T>(items: &[T], len: usize) -> (&[T], &[T])
    ensures first { result.0.now ≡ take len items.now }
    ensures rest { result.1.now ≡ drop len items.now }
{
    items.split_at(len.min(items.len()))
}

/// A digest of the messages of all entries: of each the length of its key, and its key.
fn digest_of(store: &Store) -> DefaultHasher
    ensures { result ≡ digest_of (keys_writes store.now) }
{
    let mut digest = DefaultHasher::new();
    for index in 0..store.len() {
        let key = store.get(index).key();
        digest.write_usize(key.len());
        digest.write(key);
    }
    digest
}

/// For each entry the number of its message, and how many messages there are. They are numbered
/// from 0, in the order in which they first appear. Refused only where an allocation failed.
pub fn message_numbers(alloc: Global, store: &Store) -> Result<(Vec<usize>, usize), AllocError>
    ensures numbers { IfOk result (λ r. r.0.items ≡ group_numbers same_message (entry_messages store.now)) }
    ensures count { IfOk result (λ r. r.1 ≡ length (first_ones same_message (entry_messages store.now))) }
{
    let seeded = Seeded::of(&digest_of(store));
    let mut seen = SeenTexts::with_capacity(alloc, store.len(), seeded)?;
    let mut numbers = Vec::with_capacity(alloc, store.len())?;
    for index in 0..store.len() {
        let number = seen.add(store.get(index).key())?;
        numbers.push(number)?;
    }
    Ok((numbers, seen.len()))
}
