//! Why no PO text is made of a file.

ghost use Rattle.std.specs.Prelude.{◌≡◌};
ghost use Rattle.msgunfmt.specs.declared.fault.UnformatError.TheVariants.{Mo, OutOfMemory};

use mo_file::MoError;
use std::alloc::AllocError;
use thiserror::Error;

/// Why bytes have no PO text. Messages are counted from 0, in the order of the file.
#[derive(Clone, Copy, Debug, PartialEq, Eq, Error)]
pub enum UnformatError {
    /// The bytes aren't an MO file.
    #[error("{0}")]
    Mo(MoError),
    /// A text of this message's entry isn't UTF-8.
    #[error("string {0} is not UTF-8")]
    NotUtf8(u32),
    /// A text of this message's entry holds a byte that it may not hold: an EOT in the msgid.
    #[error("string {0} has a forbidden byte")]
    ForbiddenByte(u32),
    /// A header names a charset other than UTF-8 and ASCII.
    #[error("charset is not UTF-8")]
    ForeignCharset,
    /// An allocation failed.
    #[error("out of memory")]
    OutOfMemory,
}

impl From<MoError> for UnformatError {
    ghost from_gives = { λ fault error. error ≡ Mo fault };

    fn from(fault: MoError) -> Self {
        UnformatError::Mo(fault)
    }
}

impl From<AllocError> for UnformatError {
    ghost from_gives = { λ _ error. error ≡ OutOfMemory };

    fn from(_error: AllocError) -> Self {
        UnformatError::OutOfMemory
    }
}
