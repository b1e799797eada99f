//! An MO file that has been checked, read where it lies.

ghost use Rattle.std.specs.Prelude.{◌≡◌, ◌+◌, ◌-◌, ◌^◌, ◌<◌, ◌≤◌, List, [], Some, length, IfOk, IsOk, MatchResult, slice_get};
ghost use Rattle.std.specs.Option.{option_copied};
ghost use Rattle.mo_file.specs.declared.byte_order.Order.{Order};
ghost use Rattle.mo_file.specs.Prelude.{HasMagicOf, IsMoFile, IsTranslationAt, IsFirstFault, comparisons_before, AreRising, key_at, key_cmp, keys, query_key, layout, Message, originals, translations};

use crate::byte_order::{FileOrder, Order};
use crate::checking::{check_keys, check_strings};
use crate::fault::MoError;
use crate::file_header::{FileHeader, order_of};
use crate::key::compare_key;
use crate::meter::Meter;
use crate::strings::{range_at, rest_at};
use byteorder::{BigEndian, LittleEndian};
use std::cmp::Ordering;
use std::marker::Model;
use std::ops::Range;

/// A file without messages: the magic number, revision 0, no messages, two tables after the file
/// header, and no hash table.
const EMPTY_FILE: [u8; 28] = [
    0xde, 0x12, 0x04, 0x95, 0, 0, 0, 0, 0, 0, 0, 0, 28, 0, 0, 0, 28, 0, 0, 0, 0, 0, 0, 0, 28, 0, 0,
    0,
];

/// The messages of an MO file, read in place from its bytes ("The Format of GNU MO Files"). They
/// stand in rising order of their keys.
#[derive(Drop)]
pub struct MoView<'a> {
    bytes: &'a [u8],
    header: FileHeader,
}

impl<'a> Model for MoView<'a> {
    ghost use Rattle.mo_file.specs.Prelude.{FileView, messages_of};
    ghost use Rattle.mo_file.specs.Internal.Checking.{IsChecked};

    ghost Value = { FileView };

    ghost view = { λ v. record { bytes = v.bytes.now; messages = messages_of v.header.order v.bytes.now } };

    ghost invariant = { λ v. IsChecked v.header v.bytes.now };
}

impl<'a> MoView<'a> {
    /// Checks bytes of any origin, in either byte order, and allocates nothing. Strings and tables
    /// may lie anywhere in the file and may overlap; a hash table and all other bytes are ignored.
    ///
    /// The meter counts the comparisons of two neighbouring keys: one less than there are messages,
    /// `i` where [`MoError::NotSorted`] names message `i`, and none on any other refusal.
    #[inline(always)]
    pub fn open(bytes: &'a [u8], meter: &mut Meter) -> Result<MoView<'a>, MoError>
        requires { meter.old < 2 ^ 63 }
        ensures exact { MatchResult result
            (λ view. (order : Order) × IsMoFile order bytes.now view.messages)
            (IsFirstFault bytes.now) }
        ensures bytes { IfOk result (λ view. view.bytes ≡ bytes.now) }

        // So a file that is refused is valid in no order and with no list of messages.
        ensures only { (order : Order) (messages : List Message)
            → IsMoFile order bytes.now messages → IsOk result }
        ensures cost { MatchResult result
            (λ view. meter.new ≡ meter.old + (length view.messages - 1))
            (λ e. meter.new ≡ meter.old + comparisons_before e) }
    {
        match order_of(bytes)? {
            Order::Little => MoView::open_in::<LittleEndian>(bytes, meter),
            Order::Big => MoView::open_in::<BigEndian>(bytes, meter),
        }
    }

    /// Checks bytes after the magic number, which shows this byte order.
    #[inline(always)]
    fn open_in<O: FileOrder>(bytes: &'a [u8], meter: &mut Meter) -> Result<MoView<'a>, MoError>
        requires long { 28 ≤ length bytes.now }
        requires shows { HasMagicOf O.order bytes.now }
        requires room { meter.old < 2 ^ 63 }
        ensures exact { MatchResult result
            (λ view. (order : Order) × IsMoFile order bytes.now view.messages)
            (IsFirstFault bytes.now) }
        ensures bytes { IfOk result (λ view. view.bytes ≡ bytes.now) }
        ensures cost { MatchResult result
            (λ view. meter.new ≡ meter.old + (length view.messages - 1))
            (λ e. meter.new ≡ meter.old + comparisons_before e) }
    {
        let header = FileHeader::read::<O>(bytes)?;
        check_strings::<O>(header, bytes)?;
        check_keys::<O>(header, bytes, meter)?;
        Ok(MoView { bytes, header })
    }

    /// The view of bytes that [`MoView::open`] has accepted, and that haven't changed since. It
    /// reads the file header and checks nothing.
    pub fn open_checked(bytes: &'a [u8]) -> MoView<'a>
        requires { (order : Order) × (messages : List Message) × IsMoFile order bytes.now messages }
        ensures messages { (order : Order) (messages : List Message)
            → IsMoFile order bytes.now messages → result.messages ≡ messages }
        ensures bytes { result.bytes ≡ bytes.now }
    {
        let header = match Order::of_file(bytes).unwrap_or(Order::Big) {
            Order::Little => FileHeader::of_words::<LittleEndian>(bytes),
            Order::Big => FileHeader::of_words::<BigEndian>(bytes),
        };
        MoView { bytes, header }
    }

    /// The view of a file without messages, as it is laid out: a file header alone, in little byte
    /// order.
    #[inline(always)]
    pub fn empty() -> MoView<'a>
        ensures messages { result.messages ≡ [] }
        ensures bytes { result.bytes ≡ layout Order.Little [] }
    {
        MoView {
            bytes: &EMPTY_FILE,
            header: FileHeader {
                order: Order::Little,
                count: 0,
                originals: 28,
                translations: 28,
            },
        }
    }

    /// How many messages the file has.
    pub fn len(&self) -> u32
        ensures count { result ≡ length self.now.messages }
        ensures rising { AreRising (keys self.now.messages) }
    {
        self.header.count
    }

    /// Compares the key of message `i` with the key that a query asks for, as [`compare_key`] does.
    /// The meter counts one.
    #[inline(always)]
    pub fn compare(&self, i: u32, context: Option<&[u8]>, id: &[u8], meter: &mut Meter) -> Ordering
        requires inside { i < length self.now.messages }
        requires room { meter.old < 2 ^ 64 - 1 }
        ensures order { result
            ≡ key_cmp (key_at (keys self.now.messages) i) (query_key (option_copied context.entry) id.now) }
        ensures cost { meter.new ≡ meter.old + 1 }
    {
        meter.add_one();
        compare_key(rest_at(self.header, self.bytes, i), context, id)
    }

    /// The original of message `i`: its key, and where there is a plural a NUL and the plural. The
    /// meter counts one.
    pub fn original(&self, i: u32, meter: &mut Meter) -> &'a [u8]
        requires inside { i < length self.now.messages }
        requires room { meter.old < 2 ^ 64 - 1 }
        ensures value { slice_get (originals self.now.messages) i ≡ Some result.now }
        ensures cost { meter.new ≡ meter.old + 1 }
    {
        meter.add_one();
        &self.bytes[range_at(self.header.order, self.bytes, self.header.originals, i)]
    }

    /// The translation of message `i`: its forms with a NUL between them.
    pub fn translation(&self, i: u32) -> &'a [u8]
        requires { i < length self.now.messages }
        ensures { slice_get (translations self.now.messages) i ≡ Some result.now }
    {
        &self.bytes[self.translation_range(i)]
    }

    /// Where the translation of message `i` stands, in bytes from the start of the file. A NUL
    /// follows it.
    pub fn translation_range(&self, i: u32) -> Range<usize>
        requires { i < length self.now.messages }
        ensures { IsTranslationAt self.now i result.start result.end }
    {
        range_at(self.header.order, self.bytes, self.header.translations, i)
    }

    /// The bytes of the file.
    pub fn bytes(&self) -> &'a [u8]
        ensures { result.now ≡ self.now.bytes }
    {
        self.bytes
    }
}
