//! The messages of a file whose keys are in any order.

ghost use Rattle.std.specs.Prelude.{◌≡◌, ◌+◌, ◌*◌, ◌<◌, ◌≤◌, List, length, MatchOption};
ghost use Rattle.mo_file.specs.declared.byte_order.Order.{Order};
ghost use Rattle.mo_expand.specs.Prelude.{HasMagicOf, IsFileInAnyOrder, Message, end_at, message_count, messages_of, messages_of_borrowed, string_at};

use mo_file::{BorrowedPair, Meter, MoError, MoView, Order, word};

/// The length of a file header of revision 0.
const HEADER_LEN: usize = 28;

/// Where the file header has how many messages there are.
const MESSAGE_COUNT: usize = 8;

/// The byte order of bytes that are an MO file but for the order of their keys.
pub(crate) fn order_of(bytes: &[u8]) -> Option<Order>
    ensures { MatchOption result
        ((order : Order) (messages : List Message) → ¬ IsFileInAnyOrder order bytes.now messages)
        (λ order. IsFileInAnyOrder order bytes.now (messages_of order bytes.now)) }
{
    match MoView::open(bytes, &mut Meter::new()) {
        Ok(_) => Order::of_file(bytes),
        Err(MoError::NotSorted(_)) => Order::of_file(bytes),
        Err(_) => None,
    }
}

/// How many messages a file has by its file header; none where the bytes have no such header.
pub fn message_count(bytes: &[u8]) -> u32
    ensures count { (order : Order) (messages : List Message) → IsFileInAnyOrder order bytes.now messages
        → result ≡ length messages }
    ensures header { (order : Order) → HasMagicOf order bytes.now → 28 ≤ length bytes.now
        → result ≡ message_count order bytes.now }
    ensures short { length bytes.now < 28 → result ≡ 0 }
    ensures no_file { ((order : Order) → ¬ HasMagicOf order bytes.now) → result ≡ 0 }
{
    let Some(order) = Order::of_file(bytes) else {
        return 0;
    };
    if bytes.len() < HEADER_LEN {
        return 0;
    }
    word(order, bytes, MESSAGE_COUNT)
}

/// A string of a table, without its NUL.
fn string_at<'b>(order: Order, bytes: &'b [u8], table: u32, i: u32) -> &'b [u8]
    requires entry { table + 8 * i + 8 ≤ length bytes.now }
    requires string { end_at order bytes.now table i ≤ length bytes.now }
    ensures { result.now ≡ string_at order bytes.now table i }
{
    let entry = table as usize + 8 * i as usize;
    let start = word(order, bytes, entry + 4) as usize;
    &bytes[start..start + word(order, bytes, entry) as usize]
}

/// Lists the messages of a file in the order of its tables. The list is as long as they are many.
pub(crate) fn list_all<'b>(order: Order, bytes: &'b [u8], list: &mut [BorrowedPair<'b>])
    requires file { IsFileInAnyOrder order bytes.now (messages_of order bytes.now) }
    requires room { length list.old ≡ length (messages_of order bytes.now) }
    ensures { messages_of_borrowed list.new ≡ messages_of order bytes.now }
{
    let originals = word(order, bytes, 12);
    let translations = word(order, bytes, 16);
    for i in 0..word(order, bytes, 8) {
        list[i as usize] = BorrowedPair {
            original: string_at(order, bytes, originals, i),
            translation: string_at(order, bytes, translations, i),
        };
    }
}
