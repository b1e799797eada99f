//! An MO file built from pairs, in any order or already in that of the originals.

ghost use Rattle.std.specs.Prelude.{◌≡◌, ◌^◌, ◌≤◌, length, map, IfErr, IfOk, OnOk};
ghost use Rattle.mo_file.specs.Prelude.{IsBuildFault, LayoutFits, layout, AreRising, keys, messages_of_borrowed, messages_of_pairs};

use crate::byte_order::Order;
use crate::file_header::HEADER_LEN;
use crate::pairs::{BorrowedPair, Pair, Part, StringPair, are_rising};
use crate::writing::lay_out;
use std::alloc::{AllocError, Global};
use thiserror::Error;

/// How many bytes a file has for each pair besides those of its strings: 8 in each table, and two
/// NULs.
const PAIR_OVERHEAD: u64 = 18;

/// Why no file is built. Of two reasons that hold the first in this order is reported.
#[derive(Clone, Copy, Debug, PartialEq, Eq, Error)]
pub enum BuildError {
    /// The file would have more than 4,294,967,295 bytes, so that 32 bits don't reach its end.
    #[error("too large")]
    TooLarge,
    /// A key isn't above the one before it, by unsigned bytes; a prefix is below what is longer.
    #[error("not sorted by key")]
    NotSorted,
    /// An allocation failed.
    #[error("out of memory")]
    OutOfMemory,
}

impl From<AllocError> for BuildError {
    ghost use Rattle.std.specs.Prelude.{◌≡◌};
    ghost use Rattle.mo_file.specs.declared.building.BuildError.TheVariants.{OutOfMemory};

    ghost from_gives = { λ _ e. e ≡ OutOfMemory };

    fn from(_e: AllocError) -> BuildError {
        BuildError::OutOfMemory
    }
}

/// The MO file of pairs that are sorted by their keys: the file header, the table of the originals,
/// that of the translations, all originals and all translations, each followed by a NUL, without
/// padding and without a hash table ("The Format of GNU MO Files"). The words are written in the
/// given byte order.
pub fn build(alloc: Global, order: Order, pairs: &[Pair]) -> Result<Vec<u8>, BuildError>
    ensures layout { IfOk result (λ bytes. bytes.items ≡ layout order (messages_of_pairs pairs.now)) }
    ensures fits { OnOk result (LayoutFits order (messages_of_pairs pairs.now)) }
    ensures rising { OnOk result (AreRising (keys (messages_of_pairs pairs.now))) }
    ensures fault { IfErr result (IsBuildFault order (messages_of_pairs pairs.now)) }
{
    let len = file_len(pairs)?;
    if !are_rising(pairs) {
        return Err(BuildError::NotSorted);
    }
    Ok(laid_out(Vec::new(alloc), order, pairs, len)?)
}

/// The MO file of pairs whose keys rise, as [`build`] lays it out. It doesn't check the keys again,
/// and reads each string once. It is written over what `room` holds, which gets longer where that
/// is too short.
pub fn build_sorted(
    room: Vec<u8>,
    order: Order,
    pairs: &[BorrowedPair<'_>],
) -> Result<Vec<u8>, BuildError>
    requires { AreRising (keys (messages_of_borrowed pairs.now)) }
    ensures layout { IfOk result (λ bytes. bytes.items ≡ layout order (messages_of_borrowed pairs.now)) }
    ensures fits { OnOk result (LayoutFits order (messages_of_borrowed pairs.now)) }
    ensures fault { IfErr result (IsBuildFault order (messages_of_borrowed pairs.now)) }
{
    let len = file_len(pairs)?;
    Ok(laid_out(room, order, pairs, len)?)
}

/// The length of the file in either byte order. Refused where 32 bits don't reach its end.
pub fn file_len<P: StringPair>(pairs: &[P]) -> Result<u32, BuildError>
    ensures len { IfOk result (λ len. (order : Order) → len ≡ length (layout order (map P.message pairs.now))) }
    ensures fault { IfErr result (λ e. (e ≡ BuildError.TooLarge)
        × ((order : Order) → 2 ^ 32 ≤ length (layout order (map P.message pairs.now)))) }
{
    let mut len = u64::from(HEADER_LEN);
    for pair in pairs {
        len = len
            .saturating_add(PAIR_OVERHEAD)
            .saturating_add(pair.string(Part::Original).len() as u64)
            .saturating_add(pair.string(Part::Translation).len() as u64);
    }
    if len > u64::from(u32::MAX) {
        return Err(BuildError::TooLarge);
    }
    Ok(len as u32)
}

/// The file of pairs whose layout has this length, in the memory of `room`.
fn laid_out<P: StringPair>(
    room: Vec<u8>,
    order: Order,
    pairs: &[P],
    len: u32,
) -> Result<Vec<u8>, AllocError>
    requires { len ≡ length (layout order (map P.message pairs.now)) }
    ensures { IfOk result (λ bytes. bytes.items ≡ layout order (map P.message pairs.now)) }
{
    let mut file = room;
    file.resize(len as usize, 0)?;
    lay_out(order, &mut file, pairs);
    Ok(file)
}
