//! A file with system-dependent messages, expanded into one that has none.

ghost use Rattle.std.specs.Prelude.{◌≡◌, List, length};
ghost use Rattle.mo_file.specs.declared.byte_order.Order.{Order};
ghost use Rattle.mo_expand.specs.Prelude.{IsExpandedFile, IsMoFile, Message};
ghost use Rattle.mo_expand.specs.declared.expanded_file.ExpandedFile.TheVariants.{NotMoFile};

use crate::completing::add_completed;
use crate::expanding::count_in;
use crate::listing::list_own;
use crate::platform_text::PlatformText;
use mo_file::laws::one_message_list;
use mo_file::{BorrowedPair, Meter, MoView, Order, file_len, lay_out};

/// What has become of a file that was to be expanded.
#[derive(Clone, Copy, Debug)]
pub enum ExpandedFile {
    /// The expanded file is so long, and is there where it fits.
    Len(u32),
    /// The bytes aren't an MO file.
    NotMoFile,
    /// The list is too short for the messages.
    ListTooShort,
    /// The room is too short for the strings of the system-dependent messages that the platform
    /// has.
    RoomTooShort,
    /// The expanded file would have more than 4,294,967,295 bytes.
    TooLarge,
}

/// Expands an MO file into one without system-dependent messages: it has those of the file, and of
/// the system-dependent ones, completed by the texts of a platform, those whose keys the file
/// lacks, in rising order of their keys. The new file is written from the beginning of `file` on,
/// in the byte order of the old one. The bytes may be any; `list` and `room` are for the messages
/// and for the strings that are completed.
pub fn expand_file<'b>(
    bytes: &'b [u8],
    texts: &[PlatformText<'b>],
    list: &mut [BorrowedPair<'b>],
    room: &'b mut [u8],
    file: &mut [u8],
) -> ExpandedFile
    ensures len { length file.new ≡ length file.old }
    ensures file { (order : Order) (messages : List Message) → IsMoFile order bytes.now messages
        → IsExpandedFile order bytes.now texts.now messages (length list.old) (length room.old) file.old file.new result }
    ensures no_file { ((order : Order) (messages : List Message) → ¬ IsMoFile order bytes.now messages)
        → (result ≡ NotMoFile) × (file.new ≡ file.old) }
{
    one_message_list();
    let Some(order) = Order::of_file(bytes) else {
        return ExpandedFile::NotMoFile;
    };
    let Ok(view) = MoView::open(bytes, &mut Meter::new()) else {
        return ExpandedFile::NotMoFile;
    };
    let own = view.len() as usize;
    if list.len() < own + count_in(order, bytes) as usize {
        return ExpandedFile::ListTooShort;
    }
    list_own(&view, list);
    let Some(count) = add_completed(order, bytes, texts, list, own, room) else {
        return ExpandedFile::RoomTooShort;
    };
    let Ok(len) = file_len(&list[..count]) else {
        return ExpandedFile::TooLarge;
    };
    if len as usize <= file.len() {
        lay_out(order, file, &list[..count]);
    }
    ExpandedFile::Len(len)
}
