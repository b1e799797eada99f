//! The system-dependent messages of a file, added to a list of its own.

ghost use Rattle.std.specs.Prelude.{◌≡◌, ◌+◌, ◌<◌, ◌≤◌, None, IfSome, length, take};
ghost use Rattle.std.specs.List.{sum_by};
ghost use Rattle.mo_expand.specs.Prelude.{AreRising, expanded_messages, keys, messages_of_borrowed, strings_len, system_count, system_messages};

use crate::expanding::{count_in, expand_in};
use crate::joining::Missing;
use crate::listing::insert;
use crate::platform_text::PlatformText;
use mo_file::{BorrowedPair, Order};

/// Adds the system-dependent messages of a file, completed by the texts of a platform, to the first
/// `own` of a list. Their strings stand in `room`. The result is how many messages there are then;
/// `None` says that the room doesn't suffice.
pub(crate) fn add_completed<'b>(
    order: Order,
    bytes: &'b [u8],
    texts: &[PlatformText<'b>],
    list: &mut [BorrowedPair<'b>],
    own: usize,
    room: &'b mut [u8],
) -> Option<usize>
    requires room { own + system_count order bytes.now ≤ length list.old }
    requires rising { AreRising (keys (messages_of_borrowed (take own list.old))) }
    ensures len { length list.new ≡ length list.old }
    ensures messages { IfSome result (λ n. messages_of_borrowed (take n list.new)
        ≡ expanded_messages order bytes.now texts.now (messages_of_borrowed (take own list.old))) }
    ensures many { IfSome result (λ n. n ≤ length list.old) }
    ensures room { result ≡ None
        → length room.old < sum_by strings_len (system_messages order bytes.now texts.now) }
{
    let mut count = own;
    let mut rest = room;
    for index in 0..count_in(order, bytes) {
        match expand_in(order, bytes, texts, index, rest) {
            Ok((middle, end)) => {
                let (written, left) = rest.split_at_mut(end);
                rest = left;
                let written: &'b [u8] = written;
                let added = BorrowedPair {
                    original: &written[..middle],
                    translation: &written[middle..end],
                };
                count = insert(list, count, added);
            }
            Err(Missing::Absent) => {}
            Err(Missing::Full) => return None,
        }
    }
    Some(count)
}
