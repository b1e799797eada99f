//! The first message that is defined twice in a store, and the faults of several inputs.

ghost use Rattle.std.specs.Prelude.{◌≡◌, MatchResult, IsOkUnless};
ghost use Rattle.po_entry.specs.Prelude.{HasNoDuplicate, IsDuplicateFaultOf, join_out_of_memory, out_of_memory};

use crate::keys::message_numbers;
use crate::places::places_of;
use crate::repeats::{duplicate_at, repeated_lines};
use crate::store::Store;
use po_syntax::PoError;
use std::alloc::{AllocError, AllocFailed, Global};
use thiserror::Error;

/// A fault of one of several inputs.
#[derive(Clone, Copy, Debug, PartialEq, Eq, Error)]
#[error("input {input}: {error}")]
pub struct JoinError {
    /// The input with the fault, counted from 0; 0 where the fault is of no input.
    pub input: u32,
    /// For a duplicate the input of the earlier entry, else `input`.
    pub first_input: u32,
    /// The fault, on the line of the later entry.
    pub error: PoError,
}

impl From<AllocError> for JoinError {
    ghost from_gives = { λ _ e. e ≡ join_out_of_memory };

    fn from(error: AllocError) -> JoinError {
        JoinError {
            input: 0,
            first_input: 0,
            error: error.into(),
        }
    }
}

impl<T: Drop> From<AllocFailed<T>> for JoinError {
    ghost from_gives = { λ _ e. e ≡ join_out_of_memory };

    fn from(error: AllocFailed<T>) -> JoinError {
        JoinError {
            input: 0,
            first_input: 0,
            error: error.into(),
        }
    }
}

/// Whether no live entry of a store repeats an earlier live one, by context and msgid. Refused with
/// `Duplicate`, which names the line of the earlier entry, at the line of the earliest entry that
/// repeats one; and where an allocation failed.
pub fn check_duplicates(alloc: Global, store: &Store) -> Result<(), PoError>
    ensures exact { MatchResult result (λ _. HasNoDuplicate store.now) (IsDuplicateFaultOf store.now) }
    ensures only { HasNoDuplicate store.now → IsOkUnless result out_of_memory }
{
    let (numbers, _) = message_numbers(alloc, store)?;
    let places = places_of(alloc, store)?;
    let mut seen = Vec::new(alloc);
    match repeated_lines(&mut seen, 0, &numbers, &places)? {
        Some((first, line)) => Err(duplicate_at(first, line)),
        None => Ok(()),
    }
}
