//! The key of a message: its context and msgid, as an original spells them.

ghost use Rattle.std.specs.Prelude.{◌≡◌};
ghost use Rattle.std.specs.Option.{option_copied};
ghost use Rattle.mo_file.specs.Prelude.{key_cmp, key_of, query_key};

use crate::common_prefix::{byte_at, common_prefix_len, long_common_prefix_len};
use crate::message_parts::EOT;
use std::cmp::Ordering;

/// Compares the key of an original with the key that a query asks for, by unsigned bytes; a prefix
/// comes before what is longer. The query's key is `id` alone, or the context, a byte 4 (EOT) and
/// `id`. It is compared in place and never built ("The Format of GNU MO Files").
#[inline(always)]
pub fn compare_key(original: &[u8], context: Option<&[u8]>, id: &[u8]) -> Ordering
    ensures { result
        ≡ key_cmp (key_of original.now) (query_key (option_copied context.entry) id.now) }
{
    let Some(context) = context else {
        return compare_id(original, id);
    };
    let at = common_prefix_len(0, original, context);
    if at < context.len() {
        return byte_at(original, at).cmp(&context[at]).then(Ordering::Less);
    }
    match byte_at(original, at).cmp(&EOT) {
        Ordering::Equal => compare_id(&original[at + 1..], id),
        unequal => unequal,
    }
}

/// Compares the key of an original with that of a query without a context.
#[inline(always)]
fn compare_id(original: &[u8], id: &[u8]) -> Ordering
    ensures { result ≡ key_cmp (key_of original.now) id.now }
{
    let at = common_prefix_len(0, original, id);
    if at < id.len() {
        return byte_at(original, at).cmp(&id[at]).then(Ordering::Less);
    }
    byte_at(original, at).cmp(&0)
}

/// Compares the keys of two originals in the same way.
#[inline(always)]
pub fn compare_originals(original: &[u8], other: &[u8]) -> Ordering
    ensures { result ≡ key_cmp (key_of original.now) (key_of other.now) }
{
    let at = long_common_prefix_len(0, original, other);
    byte_at(original, at).cmp(&byte_at(other, at))
}
