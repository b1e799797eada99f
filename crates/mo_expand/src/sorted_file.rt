//! A file whose keys are out of order, written in order.

ghost use Rattle.std.specs.Prelude.{◌≡◌, ◌↔◌, IsPermutation, IsTrue, List, length};
ghost use Rattle.std.specs.List.Sorted.{IsSortedBy};
ghost use Rattle.std.specs.Ordering.{is_lt};
ghost use Rattle.mo_file.specs.declared.byte_order.Order.{Order};
ghost use Rattle.mo_expand.specs.Prelude.{AreRising, IsFileInAnyOrder, IsSortedFile, Message, key_cmp, key_of, keys, messages_of_borrowed};
ghost use Rattle.mo_expand.specs.declared.sorted_file.SortedFile.TheVariants.{NotMoFile};

use crate::any_order::{list_all, order_of};
use mo_file::{BorrowedPair, compare_originals, file_len, lay_out, word};

/// What has become of a file whose messages were to be put in order.
#[derive(Clone, Copy, Debug)]
pub enum SortedFile {
    /// The file in order is so long, and is there where it fits.
    Len(u32),
    /// The bytes have another fault than that their keys are out of order.
    NotMoFile,
    /// The list is too short for the messages.
    ListTooShort,
    /// Two messages have one key.
    EqualKeys,
    /// The file in order would have more than 4,294,967,295 bytes.
    TooLarge,
}

/// Sorts messages by their keys: n log n comparisons at most, whatever order they come in.
fn sort(list: &mut [BorrowedPair<'_>])
    ensures permutation { IsPermutation list.old list.new }
    ensures sorted { IsSortedBy (λ a b. is_lt (key_cmp (key_of a.original.now) (key_of b.original.now))) list.new }
{
    list.sort_unstable_by(|a, b| compare_originals(a.original, b.original));
}

/// Whether each key is above the one before it.
fn are_rising(list: &[BorrowedPair<'_>]) -> bool
    ensures { IsTrue result ↔ AreRising (keys (messages_of_borrowed list.now)) }
{
    list.is_sorted_by(|a, b| compare_originals(a.original, b.original).is_lt())
}

/// Writes the file of the same messages in rising order of their keys, for a file whose keys are in
/// any order and that has no other fault. The new file is written from the beginning of `file` on,
/// in the byte order of the old one, and has no system-dependent messages. The bytes may be any;
/// `list` is for the messages. Two messages with one key have no order, and so no file.
pub fn sort_file<'b>(bytes: &'b [u8], list: &mut [BorrowedPair<'b>], file: &mut [u8]) -> SortedFile
    ensures len { length file.new ≡ length file.old }
    ensures file { (order : Order) (messages : List Message) → IsFileInAnyOrder order bytes.now messages
        → IsSortedFile order messages (length list.old) file.old file.new result }
    ensures no_file { ((order : Order) (messages : List Message) → ¬ IsFileInAnyOrder order bytes.now messages)
        → (result ≡ NotMoFile) × (file.new ≡ file.old) }
{
    let Some(order) = order_of(bytes) else {
        return SortedFile::NotMoFile;
    };
    let count = word(order, bytes, 8) as usize;
    if list.len() < count {
        return SortedFile::ListTooShort;
    }
    let messages = &mut list[..count];
    list_all(order, bytes, messages);
    sort(messages);
    if !are_rising(messages) {
        return SortedFile::EqualKeys;
    }
    let Ok(len) = file_len(messages) else {
        return SortedFile::TooLarge;
    };
    if len as usize <= file.len() {
        lay_out(order, file, messages);
    }
    SortedFile::Len(len)
}
