//! The hashes of messages: where all differ, no message stands twice.

ghost use Rattle.std.specs.Prelude.{◌≡◌, ◌≢◌, ◌↔◌, AllPairs, IsTrue};
ghost use Rattle.po_entry.specs.Prelude.{entry_message, message_hash};

use crate::entry_ref::EntryRef;
use std::hash::{DefaultHasher, Hasher};

/// The hash of an entry's message. Two messages may have one hash, but a message has only one.
pub fn message_hash(entry: &EntryRef<'_>) -> u64
    ensures { result ≡ message_hash (entry_message entry.now) }
{
    let mut hasher = DefaultHasher::new();
    hasher.write(entry.key());
    hasher.finish()
}

/// Whether no two of the numbers are the same.
pub fn all_differ(mut numbers: Vec<u64>) -> bool
    ensures { IsTrue result ↔ AllPairs (λ a b. a ≢ b) numbers.items }
{
    numbers.sort_unstable();
    numbers.is_sorted_by(|a, b| a < b)
}
