//! Live entries that repeat an earlier one, by the numbers of their messages.

ghost use Rattle.std.specs.Prelude.{◌≡◌, ◌≢◌, ◌+◌, ◌<◌, ◌^◌, ℕ, Bool, IfOk, List, MatchOption, OnOk, filter, get_or, length};
ghost use Rattle.po_entry.specs.Prelude.{TextEntry, AllDiffer, AreNumbered, RepeatsOnLines, are_placed, is_looked_at, AreUpTo, DifferUpTo, RepeatsAt};
ghost use Rattle.po_syntax.specs.declared.fault.PoFault.{PoFault};

use po_syntax::{PoError, PoFault};
use std::alloc::AllocError;
use std::mem::replace;

/// Where an entry stands, and whether it is looked at.
#[derive(Clone, Copy)]
pub struct EntryPlace {
    /// The line of its msgid.
    pub line: u32,
    /// Whether it is live, where duplicates are looked for.
    pub is_live: bool,
}

/// Keeps the index of a number, counted from 1. Returns the one that it had before, or 0.
fn keep_index(seen: &mut Vec<usize>, number: usize, index: usize) -> Result<usize, AllocError>
    ensures before { IfOk result (λ before. before ≡ get_or seen.old.items number 0) }
    ensures kept { OnOk result (get_or seen.new.items number 0 ≡ index) }
    ensures others { OnOk result ((other : ℕ) → other ≢ number
        → get_or seen.new.items other 0 ≡ get_or seen.old.items other 0) }
{
    while seen.len() <= number {
        seen.push(0)?;
    }
    Ok(replace(&mut seen[number], index))
}

/// Of the entries of these numbers and places, the earliest live one that has the number of an
/// earlier live one: the indexes of both. The table has for each number the index of the last live
/// entry of it, counted from 1 over several lists one after the other, or 0; before this list there
/// are `start` entries.
pub fn first_repeat(
    seen: &mut Vec<usize>,
    start: usize,
    numbers: &[usize],
    places: &[EntryPlace],
) -> Result<Option<(usize, usize)>, AllocError>
    requires lengths { length numbers.now ≡ length places.now }
    requires fits { start + length places.now < 2 ^ 64 }
    requires unseen { AreUpTo start seen.old.items }
    ensures found { IfOk result (λ found. MatchOption found
        (DifferUpTo is_looked_at numbers.now places.now (length places.now))
        (λ at. RepeatsAt is_looked_at numbers.now places.now at.0 at.1)) }
    ensures later { OnOk result (AreUpTo (start + length places.now) seen.new.items) }
{
    for (later, place) in places.iter().enumerate() {
        if !place.is_live {
            continue;
        }
        let before = keep_index(seen, numbers[later], start + later + 1)?;
        if before > start {
            return Ok(Some((before - start - 1, later)));
        }
    }
    Ok(None)
}

/// Of the entries of these numbers and places, the earliest live one that repeats an earlier live
/// one: the lines of both. The table and `start` are those of `first_repeat`.
pub fn repeated_lines(
    seen: &mut Vec<usize>,
    start: usize,
    numbers: &[usize],
    places: &[EntryPlace],
) -> Result<Option<(u32, u32)>, AllocError>
    requires lengths { length numbers.now ≡ length places.now }
    requires fits { start + length places.now < 2 ^ 64 }
    requires unseen { AreUpTo start seen.old.items }
    ensures found { IfOk result (λ found. (all entries : List TextEntry) (is_there : TextEntry → Bool)
        → AreNumbered all entries numbers.now → places.now ≡ are_placed is_there entries
        → MatchOption found (AllDiffer (filter is_there entries)) (RepeatsOnLines (filter is_there entries))) }
    ensures later { OnOk result (AreUpTo (start + length places.now) seen.new.items) }
{
    match first_repeat(seen, start, numbers, places)? {
        Some((first, later)) => Ok(Some((places[first].line, places[later].line))),
        None => Ok(None),
    }
}

/// The fault of a message that stands on this line and, again, on a later one.
pub fn duplicate_at(first: u32, line: u32) -> PoError
    ensures { result ≡ record { kind = PoFault.Duplicate first; line = line } }
{
    PoError {
        kind: PoFault::Duplicate(first),
        line,
    }
}
