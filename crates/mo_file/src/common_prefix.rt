//! The bytes that two texts have in common at their beginning, compared in lanes.

ghost use Rattle.std.specs.Prelude.{◌≡◌, ◌+◌, ◌≤◌, ◌<◌, length, slice_index};
ghost use Rattle.memchr.specs.Find.{IsFirstByte, is_byte};
ghost use Rattle.mo_file.specs.Internal.CommonPrefix.{IsCommonPrefix, IsCommonPrefixIn, first_set};

use std::simd::prelude::*;

/// The length of the common prefix of two texts, which ends before the first byte that is `stop`.
#[inline(always)]
pub(crate) fn common_prefix_len(stop: u8, first: &[u8], second: &[u8]) -> usize
    ensures { IsCommonPrefix stop first.now second.now result }
{
    let len = first.len().min(second.len());
    if len >= 16 {
        common_prefix_within::<16>(stop, first, second, len)
    } else if len >= 8 {
        common_prefix_within::<8>(stop, first, second, len)
    } else if len >= 4 {
        common_prefix_within::<4>(stop, first, second, len)
    } else if len >= 1 {
        common_prefix_within::<1>(stop, first, second, len)
    } else {
        0
    }
}

/// The length of that common prefix where it may be long, as of two rests of a file: texts of 32
/// bytes and more are compared 32 bytes at a time.
#[inline(always)]
pub(crate) fn long_common_prefix_len(stop: u8, first: &[u8], second: &[u8]) -> usize
    ensures { IsCommonPrefix stop first.now second.now result }
{
    let len = first.len().min(second.len());
    if len >= 32 {
        common_prefix_within::<32>(stop, first, second, len)
    } else {
        common_prefix_len(stop, first, second)
    }
}

/// The length of that common prefix within the first `len` bytes, compared `LANES` at a time. The
/// last group ends at `len`, so it may begin with bytes of the group before it.
#[inline(always)]
fn common_prefix_within<const LANES: usize>(
    stop: u8,
    first: &[u8],
    second: &[u8],
    len: usize,
) -> usize
    requires lanes { (0 < LANES) × (LANES ≤ 64) }
    requires long { LANES ≤ len }
    requires first { len ≤ length first.now }
    requires second { len ≤ length second.now }
    ensures { IsCommonPrefixIn stop first.now second.now 0 len result }
{
    let last = len - LANES;
    let mut at = 0;
    'groups: while at < last {
        let many = common_prefix_at::<LANES>(stop, first, second, at);
        if many < LANES {
            return at + many;
        }
        at += LANES;
    }
    last + common_prefix_at::<LANES>(stop, first, second, last)
}

/// The length of the common prefix of the `LANES` bytes from `at` on in both texts, which ends
/// before the first byte that is `stop`.
#[inline(always)]
fn common_prefix_at<const LANES: usize>(stop: u8, first: &[u8], second: &[u8], at: usize) -> usize
    requires lanes { LANES ≤ 64 }
    requires first { at + LANES ≤ length first.now }
    requires second { at + LANES ≤ length second.now }
    ensures { IsCommonPrefixIn stop first.now second.now at LANES result }
{
    let ours = Simd::<u8, LANES>::from_slice(&first[at..]);
    let theirs = Simd::<u8, LANES>::from_slice(&second[at..]);
    let ends = ours.simd_ne(theirs) | ours.simd_eq(Simd::splat(stop));
    first_set(ends.to_bitmask(), LANES)
}

/// The index of the first lane that is set in the mask, or the number of lanes where none is.
#[inline(always)]
fn first_set(mask: u64, lanes: usize) -> usize
    ensures { result ≡ first_set mask lanes }
{
    if mask == 0 {
        lanes
    } else {
        mask.trailing_zeros() as usize
    }
}

/// The byte at an index of a text, or 0 after its end, as if a NUL followed the text.
#[inline(always)]
pub(crate) fn byte_at(text: &[u8], at: usize) -> u8
    ensures { result ≡ slice_index text.now at }
{
    text.get(at).copied().unwrap_or(0)
}

/// The index of the first `byte` in a text: the common prefix of the text and itself ends there.
#[inline(always)]
pub fn find_byte(byte: u8, text: &[u8]) -> Option<usize>
    ensures { IsFirstByte (is_byte byte) text.now result }
{
    let end = common_prefix_len(byte, text, text);
    if end < text.len() { Some(end) } else { None }
}
