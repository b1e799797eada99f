//! What makes bytes an MO file: strings within the file, a NUL after each, originals in rising
//! order.

ghost use Rattle.std.specs.Prelude.{◌≡◌, ◌+◌, ◌-◌, ◌^◌, ◌<◌, ◌↔◌, Some, IfErr, IsTrue, MatchResult, slice_get};
ghost use Rattle.mo_file.specs.Prelude.{IsFirstFault, comparisons_before};
ghost use Rattle.mo_file.specs.Internal.Checking.{AreRisingBelow, HasStrings, IsHeader};

use crate::byte_order::FileOrder;
use crate::fault::MoError;
use crate::file_header::FileHeader;
use crate::key::compare_originals;
use crate::meter::Meter;
use crate::strings::{range_in, rest_in};
use std::cmp::Ordering;

/// Checks that each string lies inside the file and that a NUL follows it. A string outside the
/// file is reported before a missing NUL, whichever message has it.
#[inline(always)]
pub(crate) fn check_strings<O: FileOrder>(header: FileHeader, bytes: &[u8]) -> Result<(), MoError>
    requires order { header.order ≡ O.order }
    requires read { IsHeader header bytes.now }
    ensures exact { MatchResult result
        (λ _. HasStrings header.order bytes.now)
        (IsFirstFault bytes.now) }
    ensures no_comparison { IfErr result (λ e. comparisons_before e ≡ 0) }
{
    let mut unterminated = None;
    for i in 0..header.count {
        let original_end = range_in::<O>(bytes, header.originals, i).end;
        let translation_end = range_in::<O>(bytes, header.translations, i).end;
        if original_end > bytes.len() || translation_end > bytes.len() {
            return Err(MoError::StringOutside(i));
        }
        let terminated = is_nul(bytes, original_end) && is_nul(bytes, translation_end);
        if !terminated && unterminated.is_none() {
            unterminated = Some(i);
        }
    }
    match unterminated {
        Some(i) => Err(MoError::NoTerminator(i)),
        None => Ok(()),
    }
}

/// Whether there is a byte at this offset and it is NUL.
fn is_nul(bytes: &[u8], at: usize) -> bool
    ensures { IsTrue result ↔ (slice_get bytes.now at ≡ Some 0) }
{
    bytes.get(at) == Some(&0)
}

/// Checks that each key is above the one before it, by one comparison for each two neighbours.
#[inline(always)]
pub(crate) fn check_keys<O: FileOrder>(
    header: FileHeader,
    bytes: &[u8],
    meter: &mut Meter,
) -> Result<(), MoError>
    requires order { header.order ≡ O.order }
    requires read { IsHeader header bytes.now }
    requires strings { HasStrings header.order bytes.now }
    requires room { meter.old < 2 ^ 63 }
    ensures sorted { MatchResult result
        (λ _. AreRisingBelow header.order bytes.now header.count)
        (IsFirstFault bytes.now) }
    ensures cost { MatchResult result
        (λ _. meter.new ≡ meter.old + (header.count - 1))
        (λ e. meter.new ≡ meter.old + comparisons_before e) }
{
    if header.count == 0 {
        return Ok(());
    }
    let mut text = rest_in::<O>(header, bytes, 0);
    for i in 0..header.count - 1 {
        let next = rest_in::<O>(header, bytes, i + 1);
        meter.add_one();
        match compare_originals(text, next) {
            Ordering::Less => text = next,
            _ => return Err(MoError::NotSorted(i + 1)),
        }
    }
    Ok(())
}
