//! Why bytes aren't an MO file.

use thiserror::Error;

/// Why bytes aren't an MO file ("The Format of GNU MO Files"). Of the faults that a file has, the
/// first kind in this order is reported, with the index of the first message that has it, counted
/// from 0. Offsets and lengths are added without wrapping around.
#[derive(Clone, Copy, Debug, PartialEq, Eq, Error)]
pub enum MoError {
    /// The file is shorter than the file header of seven words, 28 bytes.
    #[error("file too short")]
    TooShort,
    /// The file begins with the magic number in neither byte order.
    #[error("bad magic number")]
    BadMagic,
    /// The major revision, the high 16 bits of the second word, is neither 0 nor 1.
    #[error("unknown revision")]
    BadRevision,
    /// The table of the originals or that of the translations ends past the end of the file.
    #[error("table outside the file")]
    TableOutside,
    /// The original or the translation of this message ends past the end of the file.
    #[error("string {0} outside the file")]
    StringOutside(u32),
    /// No NUL follows the original or the translation of this message.
    #[error("string {0} without a final NUL")]
    NoTerminator(u32),
    /// The key of this message isn't above the key of the one before it.
    #[error("string {0} out of order")]
    NotSorted(u32),
}
