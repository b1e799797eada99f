//! Expanded files.

ghost use Rattle.std.specs.Prelude.{◌≡◌, ◌<◌, ◌≤◌, List, length, take};
ghost use Rattle.mo_file.specs.declared.byte_order.Order.{Order};
ghost use Rattle.pokit_c.specs.Prelude.{IsMoFile, IsNotExpanded, Message, expanded_file, expanded_messages};

use mo_expand::laws::expanded_file_is_mo_file;
use mo_expand::{ExpandedFile, PlatformText, expand_file};
use mo_file::BorrowedPair;

/// Expands an MO file into one without system-dependent messages: the messages of the file, and of
/// the system-dependent ones, completed by the texts of a platform, those whose keys the file
/// lacks, in rising order of their keys. The result is how long the new file is, which is written
/// from the beginning of `file` on where it fits; else `file` stays as it was. The result is 0
/// where there is none: the bytes aren't an MO file, the list is shorter than its messages with the
/// system-dependent ones, `room` is too short for the strings of these, or the new file would have
/// more than 4,294,967,295 bytes.
#[unsafe(no_mangle)]
pub extern "C" fn pokit_expanded_file<'b>(
    bytes: &'b [u8],
    texts: &[PlatformText<'b>],
    list: &mut [BorrowedPair<'b>],
    room: &'b mut [u8],
    file: &mut [u8],
) -> u32
    ensures len { (order : Order) (messages : List Message) → IsMoFile order bytes.now messages → 0 < result
        → result ≡ length (expanded_file order bytes.now texts.now messages) }
    ensures file { (order : Order) (messages : List Message) → IsMoFile order bytes.now messages → 0 < result
        → result ≤ length file.old → take result file.new ≡ expanded_file order bytes.now texts.now messages }
    ensures valid { (order : Order) (messages : List Message) → IsMoFile order bytes.now messages → 0 < result
        → result ≤ length file.old
        → IsMoFile order (take result file.new) (expanded_messages order bytes.now texts.now messages) }
    ensures small { (order : Order) (messages : List Message) → IsMoFile order bytes.now messages
        → length file.old < result → file.new ≡ file.old }
    ensures none { (order : Order) (messages : List Message) → IsMoFile order bytes.now messages → result ≡ 0
        → IsNotExpanded order bytes.now texts.now messages (length list.old) (length room.old) × (file.new ≡ file.old) }
    ensures no_file { ((order : Order) (messages : List Message) → ¬ IsMoFile order bytes.now messages)
        → (result ≡ 0) × (file.new ≡ file.old) }
    ensures len_of_file { length file.new ≡ length file.old }
{
    expanded_file_is_mo_file();
    match expand_file(bytes, texts, list, room, file) {
        ExpandedFile::Len(len) => len,
        ExpandedFile::NotMoFile => 0,
        ExpandedFile::ListTooShort => 0,
        ExpandedFile::RoomTooShort => 0,
        ExpandedFile::TooLarge => 0,
    }
}
