//! The byte order of an MO file, by its magic number, and the words read in it.

ghost use Rattle.std.specs.Prelude.{◌≡◌, ◌+◌, ◌≤◌, length, MatchOption};
ghost use Rattle.mo_file.specs.Prelude.{HasMagicOf, word_at};

use byteorder::{BigEndian, ByteOrder, LittleEndian};

/// The first four bytes of a file in little endian order: the magic number 0x950412de.
const LITTLE_MAGIC: [u8; 4] = [0xde, 0x12, 0x04, 0x95];

/// The first four bytes of a file in big endian order.
const BIG_MAGIC: [u8; 4] = [0x95, 0x04, 0x12, 0xde];

/// The byte order of the 32-bit words of an MO file ("The Format of GNU MO Files"), which the magic
/// number shows.
#[derive(Clone, Copy, Debug, PartialEq, Eq)]
pub enum Order {
    /// The lowest byte of a word first.
    Little,
    /// The highest byte of a word first.
    Big,
}

impl Order {
    /// The byte order that the magic number at the start of a file shows, or `None` where no magic
    /// number stands there.
    pub fn of_file(bytes: &[u8]) -> Option<Order>
        ensures { MatchOption result
            ((order : Order) → ¬ HasMagicOf order bytes.now)
            (λ order. HasMagicOf order bytes.now) }
    {
        if bytes.starts_with(&LITTLE_MAGIC) {
            Some(Order::Little)
        } else if bytes.starts_with(&BIG_MAGIC) {
            Some(Order::Big)
        } else {
            None
        }
    }
}

/// A byte order as a type. What is generic over it is compiled for each of the two, and asks for
/// none.
pub(crate) trait FileOrder: ByteOrder {
    ghost use Rattle.std.specs.Prelude.{◌≡◌, ℕ, List, drop};
    ghost use Rattle.mo_file.specs.declared.byte_order.Order.{Order};
    ghost use Rattle.mo_file.specs.Prelude.{word_at, word_bytes};

    ghost order: { Order };

    /// This byte order as a value.
    fn order() -> Order
        ensures { result ≡ order };

    // The words of a file are the numbers that are read in this order.
    ghost reads: { (bytes : List ℕ) (at : ℕ) → Self.number_of 4 (drop at bytes) ≡ word_at order bytes at };

    // And they are written as these numbers are.
    ghost writes: { (number : ℕ) → Self.bytes_of 4 number ≡ word_bytes order number };
}

impl FileOrder for LittleEndian {
    ghost use Rattle.mo_file.specs.declared.byte_order.Order.TheVariants.{Little};
    ghost use Rattle.mo_file.specs.ByteOrder.{little_words_are_read, little_words_are_written};

    ghost order = { Little };

    ghost reads = { little_words_are_read };

    ghost writes = { little_words_are_written };

    #[inline(always)]
    fn order() -> Order {
        Order::Little
    }
}

impl FileOrder for BigEndian {
    ghost use Rattle.mo_file.specs.declared.byte_order.Order.TheVariants.{Big};
    ghost use Rattle.mo_file.specs.ByteOrder.{big_words_are_read, big_words_are_written};

    ghost order = { Big };

    ghost reads = { big_words_are_read };

    ghost writes = { big_words_are_written };

    #[inline(always)]
    fn order() -> Order {
        Order::Big
    }
}

/// The 32-bit word at an offset, in the byte order of the type.
#[inline(always)]
pub(crate) fn word_in<O: FileOrder>(bytes: &[u8], at: usize) -> u32
    requires { at + 4 ≤ length bytes.now }
    ensures { result ≡ word_at O.order bytes.now at }
{
    O::read_u32(&bytes[at..])
}

/// The 32-bit word at an offset, in this byte order.
#[inline(always)]
pub fn word(order: Order, bytes: &[u8], at: usize) -> u32
    requires { at + 4 ≤ length bytes.now }
    ensures { result ≡ word_at order bytes.now at }
{
    match order {
        Order::Little => word_in::<LittleEndian>(bytes, at),
        Order::Big => word_in::<BigEndian>(bytes, at),
    }
}
