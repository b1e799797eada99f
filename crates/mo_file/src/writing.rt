//! An MO file laid out in memory of the caller.

ghost use Rattle.std.specs.Prelude.{◌≡◌, ◌+◌, ◌*◌, ◌^◌, ◌<◌, ◌≤◌, ◌++◌, length, map, take};
ghost use Rattle.mo_file.specs.Prelude.{header, layout, table, terminated, strings_of, word_bytes};

use crate::byte_order::{FileOrder, Order};
use crate::file_header::{DESCRIPTOR_LEN, HEADER_LEN};
use crate::pairs::{Part, StringPair};
use byteorder::{BigEndian, LittleEndian};

/// The magic number, the first word of a file.
const MAGIC: u32 = 0x950412de;

/// Writes a text at an offset, and returns where it ends.
fn put(file: &mut [u8], at: usize, text: &[u8]) -> usize
    requires { at + length text.now ≤ length file.old }
    ensures len { length file.new ≡ length file.old }
    ensures end { result ≡ at + length text.now }
    ensures text { take result file.new ≡ take at file.old ++ text.now }
{
    let end = at + text.len();
    file[at..end].copy_from_slice(text);
    end
}

/// Writes a word at an offset, and returns where it ends.
fn put_word<O: FileOrder>(file: &mut [u8], at: usize, number: u32) -> usize
    requires { at + 4 ≤ length file.old }
    ensures len { length file.new ≡ length file.old }
    ensures end { result ≡ at + 4 }
    ensures text { take result file.new ≡ take at file.old ++ word_bytes O.order number }
{
    let mut bytes = [0; 4];
    O::write_u32(&mut bytes, number);
    put(file, at, &bytes)
}

/// Writes the file header of a file of so many messages, and returns where it ends.
fn put_header<O: FileOrder>(file: &mut [u8], count: u32) -> usize
    requires fits { 28 + 16 * count < 2 ^ 32 }
    requires room { 28 ≤ length file.old }
    ensures len { length file.new ≡ length file.old }
    ensures end { result ≡ 28 }
    ensures text { take result file.new ≡ header O.order count }
{
    let mut at = put_word::<O>(file, 0, MAGIC);
    at = put_word::<O>(file, at, 0);
    at = put_word::<O>(file, at, count);
    at = put_word::<O>(file, at, HEADER_LEN);
    at = put_word::<O>(file, at, HEADER_LEN + DESCRIPTOR_LEN * count);
    at = put_word::<O>(file, at, 0);
    put_word::<O>(file, at, HEADER_LEN + 2 * DESCRIPTOR_LEN * count)
}

/// Writes the table of strings, of which the first is to stand at `offset`. The result is where the
/// last is to end.
fn put_table<O: FileOrder, P: StringPair>(
    file: &mut [u8],
    at: usize,
    pairs: &[P],
    part: Part,
    offset: u32,
) -> u32
    requires room { at + 8 * length pairs.now ≤ length file.old }
    requires fits { offset + length (terminated (strings_of part (map P.message pairs.now))) < 2 ^ 32 }
    ensures len { length file.new ≡ length file.old }
    ensures end { result ≡ offset + length (terminated (strings_of part (map P.message pairs.now))) }
    ensures text { take (at + 8 * length pairs.now) file.new
        ≡ take at file.old ++ table O.order offset (strings_of part (map P.message pairs.now)) }
{
    let mut next = offset;
    let mut end = at;
    for pair in pairs {
        let len = pair.string(part).len() as u32;
        end = put_word::<O>(file, end, len);
        end = put_word::<O>(file, end, next);
        next += len + 1;
    }
    next
}

/// Writes the strings, each with its NUL, and returns where they end.
fn put_strings<P: StringPair>(file: &mut [u8], at: usize, pairs: &[P], part: Part) -> usize
    requires { at + length (terminated (strings_of part (map P.message pairs.now))) ≤ length file.old }
    ensures len { length file.new ≡ length file.old }
    ensures end { result ≡ at + length (terminated (strings_of part (map P.message pairs.now))) }
    ensures text { take result file.new
        ≡ take at file.old ++ terminated (strings_of part (map P.message pairs.now)) }
{
    let mut end = at;
    for pair in pairs {
        end = put(file, end, pair.string(part));
        end = put(file, end, &[0]);
    }
    end
}

/// Lays out the file of these pairs from the beginning of the room on, as [`build`](crate::build)
/// does. What the room has after the file stays.
pub fn lay_out<P: StringPair>(order: Order, file: &mut [u8], pairs: &[P])
    requires fits { length (layout order (map P.message pairs.now)) < 2 ^ 32 }
    requires room { length (layout order (map P.message pairs.now)) ≤ length file.old }
    ensures len { length file.new ≡ length file.old }
    ensures text { take (length (layout order (map P.message pairs.now))) file.new
        ≡ layout order (map P.message pairs.now) }
{
    match order {
        Order::Little => lay_out_in::<LittleEndian, P>(file, pairs),
        Order::Big => lay_out_in::<BigEndian, P>(file, pairs),
    }
}

/// Lays out the file of these pairs in the byte order of the type.
fn lay_out_in<O: FileOrder, P: StringPair>(file: &mut [u8], pairs: &[P])
    requires fits { length (layout O.order (map P.message pairs.now)) < 2 ^ 32 }
    requires room { length (layout O.order (map P.message pairs.now)) ≤ length file.old }
    ensures len { length file.new ≡ length file.old }
    ensures text { take (length (layout O.order (map P.message pairs.now))) file.new
        ≡ layout O.order (map P.message pairs.now) }
{
    let count = pairs.len() as u32;
    let originals = HEADER_LEN + 2 * DESCRIPTOR_LEN * count;
    let tables = put_header::<O>(file, count);
    let translations = put_table::<O, P>(file, tables, pairs, Part::Original, originals);
    let second = tables + DESCRIPTOR_LEN as usize * pairs.len();
    put_table::<O, P>(file, second, pairs, Part::Translation, translations);
    let middle = put_strings(file, originals as usize, pairs, Part::Original);
    put_strings(file, middle, pairs, Part::Translation);
}
