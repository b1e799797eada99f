//! Messages that repeat an earlier one, looked for in the order of the texts.

ghost use Rattle.std.specs.Prelude.{◌≡◌, ◌⊎◌, ◌<◌, ◌^◌, IfErr, IfOk, MatchOption, OnOk, length};
ghost use Rattle.std.specs.List.{flat_map};
ghost use Rattle.po_compile.specs.Prelude.{digest_of, fault_of_input, join_out_of_memory, key_writes, slice_texts};
ghost use Rattle.po_compile.specs.Internal.{EachApart, IsRepeat, IsRepeatAt, IsRepeatInInput, AllApart, all_messages, input_keys};

use crate::collecting::Collected;
use crate::rows::{joined_rows, room_for};
use po_entry::{JoinError, Seeded, SeenTexts, duplicate_at};
use po_syntax::{PoError, PoFault};
use std::alloc::{AllocError, Global};
use std::hash::{DefaultHasher, Hasher};
use std::slice::from_ref;

/// The keys of the joined list of the inputs. Their room is taken before that of the rows, so that
/// it doesn't stand in the way of what is taken once these are dropped.
fn keys_of<'b>(alloc: Global, inputs: &'b [Collected]) -> Result<Vec<&'b [u8]>, AllocError>
    requires { length inputs.now < 2 ^ 32 }
    ensures { IfOk result (λ keys. slice_texts keys.items ≡ input_keys (all_messages inputs.now)) }
{
    let mut keys = Vec::with_capacity(alloc, room_for(inputs))?;
    let rows = joined_rows(alloc, inputs)?;
    for row in &rows {
        keys.push(row.live.key())?;
    }
    Ok(keys)
}

/// A digest of all keys: of each its length, and its bytes.
#[tactic(auto, using(po_entry::proofs::MessageKeys::digest_more, crate::proofs::DistinctKeys::keys_more))]
fn digest_of(keys: &[&[u8]]) -> DefaultHasher
    ensures { result ≡ digest_of (flat_map key_writes (slice_texts keys.now)) }
{
    let mut digest = DefaultHasher::new();
    for key in keys {
        digest.write_usize(key.len());
        digest.write(key);
    }
    digest
}

/// The first key that stands among those before it, behind the first of these that it is: the
/// indexes of both.
fn first_repeat(alloc: Global, keys: &[&[u8]]) -> Result<Option<(usize, usize)>, AllocError>
    ensures { IfOk result (λ found. MatchOption found (AllApart (slice_texts keys.now))
        (λ at. IsRepeatAt (slice_texts keys.now) at.0 at.1)) }
{
    let mut seen = SeenTexts::new(alloc, Seeded::of(&digest_of(keys)));
    for (later, key) in keys.iter().enumerate() {
        let first = seen.add(key)?;
        if first != later {
            return Ok(Some((first, later)));
        }
    }
    Ok(None)
}

/// Whether no message of the joined list of the inputs repeats another. Refused with the first that
/// does; and where an allocation failed.
pub(crate) fn check_joined(alloc: Global, inputs: &[Collected]) -> Result<(), JoinError>
    requires { length inputs.now < 2 ^ 32 }
    ensures apart { OnOk result (AllApart (input_keys (all_messages inputs.now))) }
    ensures fault { IfErr result (λ e. (e ≡ join_out_of_memory) ⊎ IsRepeat (all_messages inputs.now) e) }
{
    let keys = keys_of(alloc, inputs)?;
    let Some((first, later)) = first_repeat(alloc, &keys)? else {
        return Ok(());
    };
    drop(keys);
    let rows = joined_rows(alloc, inputs)?;
    let (first, later) = (&rows[first], &rows[later]);
    Err(JoinError {
        input: later.input,
        first_input: first.input,
        error: duplicate_at(first.live.line(), later.live.line()),
    })
}

/// Whether no message of an input repeats another of the same input. Refused with the first that
/// does, of the first such input; and where an allocation failed.
pub(crate) fn check_each(alloc: Global, inputs: &[Collected]) -> Result<(), JoinError>
    requires { length inputs.now < 2 ^ 32 }
    ensures apart { OnOk result (EachApart inputs.now) }
    ensures fault { IfErr result (λ e. (e ≡ join_out_of_memory) ⊎ IsRepeatInInput inputs.now e) }
{
    for (input, collected) in inputs.iter().enumerate() {
        match check_joined(alloc, from_ref(collected)) {
            Ok(()) => {}
            Err(error) => return Err(fault_of_input(input as u32, error.error)),
        }
    }
    Ok(())
}

/// The fault of an input. Out of memory is of no input.
pub(crate) fn fault_of_input(input: u32, error: PoError) -> JoinError
    ensures { result ≡ fault_of_input input error }
{
    let input = match error.kind {
        PoFault::OutOfMemory => 0,
        _ => input,
    };
    JoinError {
        input,
        first_input: input,
        error,
    }
}
