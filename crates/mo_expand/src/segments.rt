//! The strings of a file, read in place.

ghost use Rattle.std.specs.Prelude.{◌≡◌, ◌<◌, ◌≤◌, ◌^◌, length};
ghost use Rattle.std.specs.Option.{option_copied};
ghost use Rattle.mo_expand.specs.Prelude.{terminated_part, part, inserted};

use crate::platform_text::{PlatformText, text_of};
use mo_file::{Order, word};

/// Where the file header has how many segments of system-dependent strings there are.
const SEGMENT_COUNT: usize = 28;

/// Where it has the offset of their table.
const SEGMENTS: usize = 32;

/// The bytes from an offset on without the NUL that is the last of them, where the file has them.
pub(crate) fn terminated_part(bytes: &[u8], start: usize, len: u32) -> Option<&[u8]>
    requires { start < 2 ^ 63 }
    ensures { option_copied result ≡ terminated_part bytes.now start len }
{
    if len == 0 {
        return None;
    }
    let end = start + (len as usize - 1);
    if end < bytes.len() && bytes[end] == 0 {
        Some(&bytes[start..end])
    } else {
        None
    }
}

/// A part of the file, where it has these bytes.
pub(crate) fn part(bytes: &[u8], start: usize, len: u32) -> Option<&[u8]>
    requires { start < 2 ^ 63 }
    ensures { option_copied result ≡ part bytes.now start len }
{
    let end = start + len as usize;
    if end <= bytes.len() {
        Some(&bytes[start..end])
    } else {
        None
    }
}

/// The text that the platform has for the name that a reference stands for.
pub(crate) fn inserted<'t>(
    order: Order,
    bytes: &[u8],
    texts: &[PlatformText<'t>],
    reference: u32,
) -> Option<&'t [u8]>
    requires { 48 ≤ length bytes.now }
    ensures { option_copied result ≡ inserted order bytes.now texts.now reference }
{
    let at = word(order, bytes, SEGMENTS) as usize + 8 * reference as usize;
    if reference >= word(order, bytes, SEGMENT_COUNT) || at + 8 > bytes.len() {
        return None;
    }
    let start = word(order, bytes, at + 4) as usize;
    text_of(
        texts,
        terminated_part(bytes, start, word(order, bytes, at))?,
    )
}
