//! The seven words that begin an MO file.

ghost use Rattle.std.specs.Prelude.{◌≡◌, ◌≤◌, IfErr, IfOk, MatchResult, length};
ghost use Rattle.mo_file.specs.Prelude.{HasMagicOf, message_count, originals_table, translations_table, IsFirstFault, comparisons_before};
ghost use Rattle.mo_file.specs.Internal.Checking.{IsHeader};

use crate::byte_order::{FileOrder, Order, word_in};
use crate::fault::MoError;

/// The length of the file header in bytes: seven words of 4.
pub(crate) const HEADER_LEN: u32 = 28;

/// The length of the descriptor of a string in a table: a word for its length, one for its offset.
pub(crate) const DESCRIPTOR_LEN: u32 = 8;

/// The words of the file header that say where the strings of a file stand.
#[derive(Clone, Copy)]
pub(crate) struct FileHeader {
    pub(crate) order: Order,
    /// The number of messages.
    pub(crate) count: u32,
    /// Where the table of the originals begins, in bytes from the start of the file.
    pub(crate) originals: u32,
    /// Where the table of the translations begins.
    pub(crate) translations: u32,
}

impl FileHeader {
    /// The words of the file header, read in this byte order.
    #[inline(always)]
    pub(crate) fn of_words<O: FileOrder>(bytes: &[u8]) -> FileHeader
        requires { 28 ≤ length bytes.now }
        ensures order { result.order ≡ O.order }
        ensures count { result.count ≡ message_count result.order bytes.now }
        ensures originals { result.originals ≡ originals_table result.order bytes.now }
        ensures translations { result.translations ≡ translations_table result.order bytes.now }
    {
        FileHeader {
            order: O::order(),
            count: word_in::<O>(bytes, 8),
            originals: word_in::<O>(bytes, 12),
            translations: word_in::<O>(bytes, 16),
        }
    }

    /// Reads the file header in the byte order that the magic number shows, and checks that both
    /// tables lie inside the file.
    #[inline(always)]
    pub(crate) fn read<O: FileOrder>(bytes: &[u8]) -> Result<FileHeader, MoError>
        requires long { 28 ≤ length bytes.now }
        requires shows { HasMagicOf O.order bytes.now }
        ensures exact { MatchResult result (λ header. IsHeader header bytes.now) (IsFirstFault bytes.now) }
        ensures order { IfOk result (λ header. header.order ≡ O.order) }
        ensures no_comparison { IfErr result (λ e. comparisons_before e ≡ 0) }
    {
        if word_in::<O>(bytes, 4) >> 16 > 1 {
            return Err(MoError::BadRevision);
        }
        let header = FileHeader::of_words::<O>(bytes);
        let table_len = DESCRIPTOR_LEN as usize * header.count as usize;
        if header.originals as usize + table_len > bytes.len()
            || header.translations as usize + table_len > bytes.len()
        {
            return Err(MoError::TableOutside);
        }
        Ok(header)
    }
}

/// The byte order of a file that is long enough for the file header.
pub(crate) fn order_of(bytes: &[u8]) -> Result<Order, MoError>
    ensures exact { MatchResult result
        (λ order. (28 ≤ length bytes.now) × HasMagicOf order bytes.now)
        (IsFirstFault bytes.now) }
    ensures no_comparison { IfErr result (λ e. comparisons_before e ≡ 0) }
{
    if bytes.len() < HEADER_LEN as usize {
        return Err(MoError::TooShort);
    }
    Order::of_file(bytes).ok_or(MoError::BadMagic)
}
