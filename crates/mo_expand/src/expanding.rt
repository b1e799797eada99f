//! The messages of system-dependent strings, one at a time.

ghost use Rattle.std.specs.Prelude.{◌≡◌, ◌<◌, ◌≤◌, Err, length};
ghost use Rattle.mo_file.specs.declared.byte_order.Order.{Order};
ghost use Rattle.mo_expand.specs.Prelude.{HasMagicOf, IsExpanded, message_from, system_count, system_message, text_at};
ghost use Rattle.mo_expand.specs.declared.joining.Missing.TheVariants.{Absent};
ghost use Rattle.mo_expand.specs.Internal.Joining.{IsTried};

use crate::joining::{Missing, has_text, put_text};
use crate::platform_text::PlatformText;
use mo_file::{Order, word};

/// The length of a file header that tells of system-dependent strings: that of revision 1 (GNU
/// gettext manual, "The Format of GNU MO Files").
const LONG_HEADER_LEN: usize = 48;

/// Where the file header has the revision.
const REVISION: usize = 4;

/// Where it has how many system-dependent messages there are.
const SYSTEM_COUNT: usize = 36;

/// Where it has the offset of the table of their originals.
const SYSTEM_ORIGINALS: usize = 40;

/// Where it has the offset of the table of their translations.
const SYSTEM_TRANSLATIONS: usize = 44;

/// How many system-dependent messages a file has, of which the platform may lack some.
pub fn system_count(bytes: &[u8]) -> u32
    ensures count { (order : Order) → HasMagicOf order bytes.now → result ≡ system_count order bytes.now }
    ensures no_file { ((order : Order) → ¬ HasMagicOf order bytes.now) → result ≡ 0 }
{
    match Order::of_file(bytes) {
        Some(order) => count_in(order, bytes),
        None => 0,
    }
}

/// How many system-dependent messages a file of this byte order has.
pub(crate) fn count_in(order: Order, bytes: &[u8]) -> u32
    ensures count { result ≡ system_count order bytes.now }
    ensures long { 0 < result → 48 ≤ length bytes.now }
{
    if bytes.len() < LONG_HEADER_LEN || word(order, bytes, REVISION) & 0xffff == 0 {
        return 0;
    }
    let count = word(order, bytes, SYSTEM_COUNT);
    let table_len = 4 * count as usize;
    if word(order, bytes, SYSTEM_ORIGINALS) as usize + table_len > bytes.len()
        || word(order, bytes, SYSTEM_TRANSLATIONS) as usize + table_len > bytes.len()
    {
        return 0;
    }
    count
}

/// Completes a system-dependent message by the texts of a platform, and writes its original and
/// then its translation, each without a NUL at its end, from the beginning of `room` on. Returns
/// where the original ends, and where the translation.
pub fn expand<'b>(
    bytes: &'b [u8],
    texts: &[PlatformText<'b>],
    index: u32,
    room: &mut [u8],
) -> Result<(usize, usize), Missing>
    ensures len { length room.new ≡ length room.old }
    ensures message { (order : Order) → HasMagicOf order bytes.now
        → IsExpanded room.old room.new (system_message order bytes.now texts.now index) result }
    ensures no_file { ((order : Order) → ¬ HasMagicOf order bytes.now) → result ≡ Err Absent }
{
    match Order::of_file(bytes) {
        Some(order) => expand_in(order, bytes, texts, index, room),
        None => Err(Missing::Absent),
    }
}

/// Completes a system-dependent message of a file of this byte order, as `expand` does.
pub(crate) fn expand_in<'b>(
    order: Order,
    bytes: &'b [u8],
    texts: &[PlatformText<'b>],
    index: u32,
    room: &mut [u8],
) -> Result<(usize, usize), Missing>
    ensures len { length room.new ≡ length room.old }
    ensures message { IsExpanded room.old room.new (system_message order bytes.now texts.now index) result }
{
    if index >= count_in(order, bytes) {
        return Err(Missing::Absent);
    }
    let index = 4 * index as usize;
    let originals = word(order, bytes, SYSTEM_ORIGINALS) as usize;
    let translations = word(order, bytes, SYSTEM_TRANSLATIONS) as usize;
    let original = word(order, bytes, originals + index);
    let translation = word(order, bytes, translations + index);
    match put_strings(order, bytes, texts, original, translation, room) {
        Ok(ends) => Ok(ends),
        Err(Missing::Absent) => Err(Missing::Absent),
        Err(Missing::Full) => {
            if !has_text(order, bytes, texts, original) {
                return Err(Missing::Absent);
            }
            if !has_text(order, bytes, texts, translation) {
                return Err(Missing::Absent);
            }
            Err(Missing::Full)
        }
    }
}

/// Writes the two strings that are described at these offsets, one after the other. Where the room
/// is too short it doesn't say whether both are there.
fn put_strings<'b>(
    order: Order,
    bytes: &'b [u8],
    texts: &[PlatformText<'b>],
    original: u32,
    translation: u32,
    room: &mut [u8],
) -> Result<(usize, usize), Missing>
    requires { 48 ≤ length bytes.now }
    ensures len { length room.new ≡ length room.old }
    ensures message { IsTried room.old room.new
        (message_from (text_at order bytes.now texts.now original) (text_at order bytes.now texts.now translation))
        result }
{
    let middle = put_text(order, bytes, texts, original, room, 0)?;
    let end = put_text(order, bytes, texts, translation, room, middle)?;
    Ok((middle, end))
}
