//! Joining the segments of a string.

ghost use Rattle.std.specs.Prelude.{◌≡◌, ◌+◌, ◌<◌, ◌≤◌, ◌^◌, ◌++◌, ℕ, List, Option, IfSome, is_some, length};
ghost use Rattle.mo_expand.specs.Prelude.{from_segment, text_at};
ghost use Rattle.mo_expand.specs.Internal.Joining.{IsPut, IsWritten, with_rest};

use crate::platform_text::PlatformText;
use crate::segments::{inserted, part, terminated_part};
use mo_file::{Order, word};

/// What stands in a descriptor after the last segment, in place of a name.
const LAST: u32 = u32::MAX;

/// The most segments that a string may have.
const SEGMENT_LIMIT: u32 = 256;

/// Why a message that was to be written isn't there.
#[derive(Clone, Copy, Debug)]
pub enum Missing {
    /// There is no such message: the platform lacks a text, or a string isn't well formed.
    Absent,
    /// There is no room for it.
    Full,
}

/// Writes a text from an offset on, where there is room for it.
fn put(room: &mut [u8], at: usize, text: &[u8]) -> Option<usize>
    requires { at ≤ length room.old }
    ensures len { length room.new ≡ length room.old }
    ensures end { IsPut room.old room.new at text.now result }
{
    if text.len() > room.len() - at {
        return None;
    }
    let end = at + text.len();
    room[at..end].copy_from_slice(text);
    Some(end)
}

/// Writes two texts, one after the other, where there is room for both.
fn put_both(room: &mut [u8], at: usize, first: &[u8], second: &[u8]) -> Option<usize>
    requires { at ≤ length room.old }
    ensures len { length room.new ≡ length room.old }
    ensures end { IsPut room.old room.new at (first.now ++ second.now) result }
{
    let middle = put(room, at, first)?;
    put(room, middle, second)
}

/// A segment of a string, as it is written.
enum Segment<'b> {
    /// The last: its bytes.
    Last(&'b [u8]),
    /// Another: its bytes, and the text that stands after them.
    Before(&'b [u8], &'b [u8]),
}

/// The segment that is described at an offset and has its bytes at another, where it is well formed
/// and the platform has the text.
fn segment_at<'b>(
    order: Order,
    bytes: &'b [u8],
    texts: &[PlatformText<'b>],
    at: usize,
    start: usize,
) -> Option<Segment<'b>>
    requires long { 48 ≤ length bytes.now }
    requires at { at < 2 ^ 63 }
    requires start { start < 2 ^ 63 }
    ensures segment { (rest : Option (List ℕ)) → from_segment order bytes.now texts.now at start rest
        ≡ with_rest result rest }
    ensures len { IfSome result (λ _. at + 8 ≤ length bytes.now) }
{
    if at + 8 > bytes.len() {
        return None;
    }
    let len = word(order, bytes, at);
    let reference = word(order, bytes, at + 4);
    if reference == LAST {
        return Some(Segment::Last(terminated_part(bytes, start, len)?));
    }
    let literal = part(bytes, start, len)?;
    let text = inserted(order, bytes, texts, reference)?;
    Some(Segment::Before(literal, text))
}

/// Writes the text of the string that is described at an offset, and returns where it ends.
pub(crate) fn put_text<'b>(
    order: Order,
    bytes: &'b [u8],
    texts: &[PlatformText<'b>],
    described: u32,
    room: &mut [u8],
    start: usize,
) -> Result<usize, Missing>
    requires long { 48 ≤ length bytes.now }
    requires inside { start ≤ length room.old }
    ensures len { length room.new ≡ length room.old }
    ensures text { IsWritten room.old room.new start (text_at order bytes.now texts.now described) result }
{
    let mut descriptor = described as usize + 4;
    if descriptor > bytes.len() {
        return Err(Missing::Absent);
    }
    let mut source = word(order, bytes, described as usize) as usize;
    let mut at = start;
    for i in 0..SEGMENT_LIMIT {
        match segment_at(order, bytes, texts, descriptor, source) {
            None => return Err(Missing::Absent),
            Some(Segment::Last(text)) => {
                return put(room, at, text).ok_or(Missing::Full);
            }
            Some(Segment::Before(literal, text)) => {
                let Some(end) = put_both(room, at, literal, text) else {
                    return Err(Missing::Full);
                };
                at = end;
                source += word(order, bytes, descriptor) as usize;
                descriptor += 8;
            }
        }
    }
    Err(Missing::Absent)
}

/// Whether a string has a text, of whatever length.
pub(crate) fn has_text<'b>(
    order: Order,
    bytes: &'b [u8],
    texts: &[PlatformText<'b>],
    described: u32,
) -> bool
    requires { 48 ≤ length bytes.now }
    ensures { result ≡ is_some (text_at order bytes.now texts.now described) }
{
    let mut descriptor = described as usize + 4;
    if descriptor > bytes.len() {
        return false;
    }
    let mut source = word(order, bytes, described as usize) as usize;
    for i in 0..SEGMENT_LIMIT {
        match segment_at(order, bytes, texts, descriptor, source) {
            None => return false,
            Some(Segment::Last(_)) => return true,
            Some(Segment::Before(_, _)) => {
                source += word(order, bytes, descriptor) as usize;
                descriptor += 8;
            }
        }
    }
    false
}
