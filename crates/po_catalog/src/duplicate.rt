//! The first message that is defined twice, in one catalogue or across several.

ghost use Rattle.std.specs.Prelude.{◌<◌, ◌^◌, All, IfOk, MatchOption, MatchResult, IsOkUnless, length};
ghost use Rattle.po_catalog.specs.Prelude.{HasNoDuplicate, IsCatalogueEntry, IsDuplicateFault, IsDuplicateFaultOf, IsFirstDuplicate, entries_of, input_entries, input_entry, join_out_of_memory, joined, joined_entries, out_of_memory};

use crate::catalogue::Catalogue;
use crate::joining::{InputEntry, joined, joined_store};
use crate::stores::store_of;
use po_entry::{
    JoinError, check_duplicates, duplicate_at, first_repeat, message_numbers, places_of,
};
use po_syntax::PoError;
use std::alloc::{AllocError, Global};

/// Whether no live entry of a catalogue repeats an earlier live one, by context and msgid. Refused
/// with `Duplicate`, which names the line of the earlier entry, at the line of the earliest entry
/// that repeats one; and where an allocation failed.
pub fn duplicates(alloc: Global, catalogue: &Catalogue) -> Result<(), PoError>
    ensures exact { MatchResult result (λ _. HasNoDuplicate catalogue.now) (IsDuplicateFaultOf catalogue.now) }
    ensures only { HasNoDuplicate catalogue.now → IsOkUnless result out_of_memory }
{
    let store = store_of(alloc, catalogue.entries())?;
    check_duplicates(alloc, &store)
}

/// Whether no live entry of the joined list repeats an earlier live one, by context and msgid.
/// Refused with `Duplicate`, which names the input and the line of the earlier entry, at the input
/// and the line of the earliest entry that repeats one; and where an allocation failed.
pub fn joined_duplicates(alloc: Global, catalogues: &[Catalogue]) -> Result<(), JoinError>
    requires { length catalogues.now < 2 ^ 32 }
    ensures exact { MatchResult result (λ _. HasNoDuplicate (joined_entries catalogues.now))
        (IsDuplicateFault (joined catalogues.now)) }
    ensures only { HasNoDuplicate (joined_entries catalogues.now) → IsOkUnless result join_out_of_memory }
{
    let entries = joined(alloc, catalogues)?;
    first_duplicate(alloc, &entries)
}

/// Looks for the earliest live entry that repeats an earlier live one.
fn first_duplicate(alloc: Global, entries: &[InputEntry<'_>]) -> Result<(), JoinError>
    requires { All IsCatalogueEntry (entries_of (input_entries entries.now)) }
    ensures exact { MatchResult result (λ _. HasNoDuplicate (entries_of (input_entries entries.now)))
        (IsDuplicateFault (input_entries entries.now)) }
{
    match first_pair(alloc, entries)? {
        Some((first, later)) => Err(JoinError {
            input: later.input,
            first_input: first.input,
            error: duplicate_at(first.entry.line(), later.entry.line()),
        }),
        None => Ok(()),
    }
}

/// The earliest live entry that repeats an earlier live one, behind that one.
fn first_pair<'a>(
    alloc: Global,
    entries: &[InputEntry<'a>],
) -> Result<Option<(InputEntry<'a>, InputEntry<'a>)>, AllocError>
    requires { All IsCatalogueEntry (entries_of (input_entries entries.now)) }
    ensures { IfOk result (λ pair. MatchOption pair (HasNoDuplicate (entries_of (input_entries entries.now)))
        (λ p. IsFirstDuplicate (input_entries entries.now) (input_entry p.0) (input_entry p.1))) }
{
    let store = joined_store(alloc, entries)?;
    let (numbers, _) = message_numbers(alloc, &store)?;
    let places = places_of(alloc, &store)?;
    let mut seen = Vec::new(alloc);
    let Some((first, later)) = first_repeat(&mut seen, 0, &numbers, &places)? else {
        return Ok(None);
    };
    Ok(Some((entries[first], entries[later])))
}
