//! The row of a live entry: where it lies, and what it is sorted by.

ghost use Rattle.std.specs.Prelude.{◌≡◌, ◌<◌, All};
ghost use Rattle.po_compile.specs.Prelude.{key_cmp, query_key};
ghost use Rattle.po_compile.specs.Internal.Prefix.{prefix_of, second_prefix_of};

use crate::status::Status;
use byteorder::{BigEndian, ByteOrder};
use po_entry::EntryRef;
use std::cmp::Ordering;

pub(crate) const PREFIX_LEN: usize = 16;

/// A live entry, which is borrowed. Most rows are compared by the first bytes of their keys alone,
/// which stand here as two numbers; the keys themselves lie anywhere in memory.
#[derive(Drop)]
pub(crate) struct Row<'b> {
    /// The first sixteen bytes of the key, as a number.
    pub(crate) prefix: u128,
    /// The next sixteen bytes of the key, as a number.
    pub(crate) second_prefix: u128,
    /// The entry.
    pub(crate) live: EntryRef<'b>,
    /// The input of the entry, counted from 0.
    pub(crate) input: u32,
    /// Whether the entry is compiled, and what the statistics ask of it.
    pub(crate) status: Status,
    ghost bytes: { All (λ byte. byte < 256) (query_key live.context live.id) },
    ghost first: { prefix ≡ prefix_of (query_key live.context live.id) },
    ghost next: { second_prefix ≡ second_prefix_of (query_key live.context live.id) },
}

/// The order of the keys of two rows.
pub(crate) fn compare(a: &Row<'_>, b: &Row<'_>) -> Ordering
    ensures { result ≡ key_cmp (query_key a.now.live.context a.now.live.id)
        (query_key b.now.live.context b.now.live.id) }
{
    match a.prefix.cmp(&b.prefix) {
        Ordering::Equal => match a.second_prefix.cmp(&b.second_prefix) {
            Ordering::Equal => a.live.key().cmp(b.live.key()),
            other => other,
        },
        other => other,
    }
}

/// The first sixteen bytes of a key as a big-endian number, with zeros after a shorter key.
#[tactic(auto, using(crate::proofs::KeyPrefixes::prefix_read))]
pub(crate) fn prefix_of(key: &[u8]) -> u128
    ensures { result ≡ prefix_of key.now }
{
    let (first, _) = key.split_at(PREFIX_LEN.min(key.len()));
    let mut bytes = [0; PREFIX_LEN];
    bytes[..first.len()].copy_from_slice(first);
    BigEndian::read_u128(&bytes)
}
