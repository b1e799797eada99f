//! Files in order.

ghost use Rattle.std.specs.Prelude.{◌≡◌, ◌<◌, ◌≤◌, List, length, take};
ghost use Rattle.mo_file.specs.declared.byte_order.Order.{Order};
ghost use Rattle.pokit_c.specs.Prelude.{AnswersAlike, HasMagicOf, IsFileInAnyOrder, IsFileOfSorted, IsInOrder, IsMoFile, IsNotSorted, Message, message_count};

use mo_expand::laws::{same_message_under_key, sorted_file_is_mo_file};
use mo_expand::{SortedFile, message_count, sort_file};
use mo_file::BorrowedPair;

/// How many messages a file has by its file header, its header entry among them: so many places
/// [`pokit_sorted_file`] wants. The bytes may be any; the result is 0 where they have no file
/// header.
#[unsafe(no_mangle)]
pub extern "C" fn pokit_message_count(bytes: &[u8]) -> u32
    ensures count { (order : Order) (messages : List Message) → IsFileInAnyOrder order bytes.now messages
        → result ≡ length messages }
    ensures header { (order : Order) → HasMagicOf order bytes.now → 28 ≤ length bytes.now
        → result ≡ message_count order bytes.now }
    ensures short { length bytes.now < 28 → result ≡ 0 }
    ensures no_file { ((order : Order) → ¬ HasMagicOf order bytes.now) → result ≡ 0 }
{
    message_count(bytes)
}

/// Writes the file of the same messages in rising order of their keys, for a file that
/// [`pokit_catalog_open`](crate::opening::pokit_catalog_open) refuses for the order of its keys
/// alone, and for a valid one. The result is how long the new file is, which is written from the
/// beginning of `file` on where it fits; else `file` stays as it was. The result is 0 where there
/// is none: the bytes have another fault, the list is shorter than the messages, two messages have
/// one key, or the new file would have more than 4,294,967,295 bytes.
#[unsafe(no_mangle)]
pub extern "C" fn pokit_sorted_file<'b>(
    bytes: &'b [u8],
    list: &mut [BorrowedPair<'b>],
    file: &mut [u8],
) -> u32
    ensures file { (order : Order) (messages : List Message) → IsFileInAnyOrder order bytes.now messages → 0 < result
        → IsFileOfSorted order messages file.old file.new result }
    ensures valid { (order : Order) (messages : List Message) → IsFileInAnyOrder order bytes.now messages → 0 < result
        → result ≤ length file.old
        → (sorted : List Message) × IsInOrder messages sorted × IsMoFile order (take result file.new) sorted
        × AnswersAlike messages sorted }
    ensures none { (order : Order) (messages : List Message) → IsFileInAnyOrder order bytes.now messages → result ≡ 0
        → IsNotSorted order messages (length list.old) × (file.new ≡ file.old) }
    ensures no_file { ((order : Order) (messages : List Message) → ¬ IsFileInAnyOrder order bytes.now messages)
        → (result ≡ 0) × (file.new ≡ file.old) }
    ensures len_of_file { length file.new ≡ length file.old }
{
    sorted_file_is_mo_file();
    same_message_under_key();
    match sort_file(bytes, list, file) {
        SortedFile::Len(len) => len,
        SortedFile::NotMoFile => 0,
        SortedFile::ListTooShort => 0,
        SortedFile::EqualKeys => 0,
        SortedFile::TooLarge => 0,
    }
}
