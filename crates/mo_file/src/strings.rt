//! Where the strings of an MO file stand, by its two tables of descriptors.

ghost use Rattle.std.specs.Prelude.{◌≡◌, ◌+◌, ◌*◌, ◌<◌, ◌≤◌, length};
ghost use Rattle.mo_file.specs.Prelude.{key_of, end_at, offset_at, original_at};
ghost use Rattle.mo_file.specs.Internal.Checking.{HasStrings, IsHeader};

use crate::byte_order::{FileOrder, Order, word_in};
use crate::file_header::{DESCRIPTOR_LEN, FileHeader};
use byteorder::{BigEndian, LittleEndian};
use std::ops::Range;

/// Where string `i` of a table stands, in bytes from the start of the file.
#[inline(always)]
pub(crate) fn range_in<O: FileOrder>(bytes: &[u8], table: u32, i: u32) -> Range<usize>
    requires { table + 8 * i + 8 ≤ length bytes.now }
    ensures start { result.start ≡ offset_at O.order bytes.now table i }
    ensures end { result.end ≡ end_at O.order bytes.now table i }
{
    let descriptor = table as usize + DESCRIPTOR_LEN as usize * i as usize;
    let len = word_in::<O>(bytes, descriptor) as usize;
    let start = word_in::<O>(bytes, descriptor + 4) as usize;
    start..start + len
}

/// Where the string that entry `i` of a table describes stands, in a file of this byte order.
#[inline(always)]
pub(crate) fn range_at(order: Order, bytes: &[u8], table: u32, i: u32) -> Range<usize>
    requires { table + 8 * i + 8 ≤ length bytes.now }
    ensures start { result.start ≡ offset_at order bytes.now table i }
    ensures end { result.end ≡ end_at order bytes.now table i }
{
    match order {
        Order::Little => range_in::<LittleEndian>(bytes, table, i),
        Order::Big => range_in::<BigEndian>(bytes, table, i),
    }
}

/// The rest of the file from the original of message `i` on. It has the original's key, which ends
/// at the NUL after the original at the latest.
#[tactic(auto, using(crate::proofs::KeyComparison::key_of_rest), unfolding(crate::specs::Strings::string_at))]
#[inline(always)]
pub(crate) fn rest_in<O: FileOrder>(header: FileHeader, bytes: &[u8], i: u32) -> &[u8]
    requires order { header.order ≡ O.order }
    requires read { IsHeader header bytes.now }
    requires strings { HasStrings header.order bytes.now }
    requires counted { i < header.count }
    ensures { key_of result.now ≡ key_of (original_at header.order bytes.now i) }
{
    &bytes[range_in::<O>(bytes, header.originals, i).start..]
}

/// The rest of the file from the original of message `i` on, in the byte order of its header.
#[inline(always)]
pub(crate) fn rest_at(header: FileHeader, bytes: &[u8], i: u32) -> &[u8]
    requires read { IsHeader header bytes.now }
    requires strings { HasStrings header.order bytes.now }
    requires counted { i < header.count }
    ensures { key_of result.now ≡ key_of (original_at header.order bytes.now i) }
{
    match header.order {
        Order::Little => rest_in::<LittleEndian>(header, bytes, i),
        Order::Big => rest_in::<BigEndian>(header, bytes, i),
    }
}
