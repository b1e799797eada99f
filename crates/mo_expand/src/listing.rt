//! Messages in a list of the caller's, in rising order of their keys.

ghost use Rattle.std.specs.Prelude.{◌≡◌, ◌+◌, ◌<◌, ◌≤◌, length, take};
ghost use Rattle.mo_expand.specs.Prelude.{AreRising, borrowed_message, keys, messages_of_borrowed, with_message};

use mo_file::{BorrowedPair, Meter, MoView, compare_originals};

/// Lists the messages of a file from the beginning of the list on.
pub(crate) fn list_own<'b>(view: &MoView<'b>, list: &mut [BorrowedPair<'b>])
    requires { length view.now.messages ≤ length list.old }
    ensures len { length list.new ≡ length list.old }
    ensures messages { messages_of_borrowed (take (length view.now.messages) list.new) ≡ view.now.messages }
{
    let mut meter = Meter::new();
    for i in 0..view.len() {
        list[i as usize] = BorrowedPair {
            original: view.original(i, &mut meter),
            translation: view.translation(i),
        };
    }
}

/// Adds a message to the first `count` of a list, unless its key is there, and returns how many
/// they are then.
pub(crate) fn insert<'b>(
    list: &mut [BorrowedPair<'b>],
    count: usize,
    added: BorrowedPair<'b>,
) -> usize
    requires room { count < length list.old }
    requires rising { AreRising (keys (messages_of_borrowed (take count list.old))) }
    ensures len { length list.new ≡ length list.old }
    ensures messages { messages_of_borrowed (take result list.new)
        ≡ with_message (borrowed_message added.entry) (messages_of_borrowed (take count list.old)) }
    ensures more { result ≤ count + 1 }
{
    match list[..count].binary_search_by(|it| compare_originals(it.original, added.original)) {
        Ok(_) => count,
        Err(at) => {
            list.copy_within(at..count, at + 1);
            list[at] = added;
            count + 1
        }
    }
}
