//! What is wrong with a PO text, and in which line.

ghost use Rattle.std.specs.Prelude.{◌≡◌};
ghost use Rattle.po_syntax.specs.declared.fault.PoFault.TheVariants.{OutOfMemory};

use std::alloc::{AllocError, AllocFailed};
use thiserror::Error;

/// What is wrong with a PO text (manual, "The Format of PO Files").
#[derive(Clone, Copy, Debug, PartialEq, Eq, Error)]
pub enum PoFault {
    /// The PO text, or a text of an entry (its strings joined), is not UTF-8.
    #[error("not UTF-8")]
    NotUtf8,
    /// A byte or word of a line that is no part of a comment, keyword, index or string.
    #[error("unexpected byte or word")]
    BadToken,
    /// A line or the text ends inside a quoted string.
    #[error("string not closed")]
    UnterminatedString,
    /// An escape is none of the format's, or its value is above 255.
    #[error("bad escape")]
    BadEscape,
    /// A NUL anywhere, or an EOT (byte 4) in a context or msgid.
    #[error("forbidden byte")]
    ForbiddenByte,
    /// An item cannot follow those before it.
    #[error("keyword or text out of order")]
    BadOrder,
    /// The index of a `msgstr` is not the next one, or is above 4,294,967,295.
    #[error("wrong plural index")]
    BadPluralIndex,
    /// The lines of an entry's body are partly obsolete, partly live.
    #[error("live and obsolete lines mixed")]
    MixedObsolete,
    /// A live entry has the context and msgid of an earlier one, which begins at this line.
    #[error("duplicate of the message at line {0}")]
    Duplicate(u32),
    /// A header names a charset other than UTF-8 and ASCII.
    #[error("charset is not UTF-8")]
    ForeignCharset,
    /// A text or a compiled catalogue is longer than its limit.
    #[error("too large")]
    TooLarge,
    /// An allocation failed.
    #[error("out of memory")]
    OutOfMemory,
}

/// A fault of a PO text, with its line.
#[derive(Clone, Copy, Debug, PartialEq, Eq, Error)]
#[error("line {line}: {kind}")]
pub struct PoError {
    /// What is wrong.
    pub kind: PoFault,
    /// The line of the fault, counted from 1; 0 where the fault has no line, as out of memory.
    pub line: u32,
}

impl From<AllocError> for PoError {
    ghost from_gives = { λ _ e. e ≡ record { kind = OutOfMemory; line = 0 } };

    fn from(_error: AllocError) -> PoError {
        PoError {
            kind: PoFault::OutOfMemory,
            line: 0,
        }
    }
}

impl<T: Drop> From<AllocFailed<T>> for PoError {
    ghost from_gives = { λ _ e. e ≡ record { kind = OutOfMemory; line = 0 } };

    fn from(_error: AllocFailed<T>) -> PoError {
        PoError {
            kind: PoFault::OutOfMemory,
            line: 0,
        }
    }
}

impl From<AllocError> for PoFault {
    ghost from_gives = { λ _ fault. fault ≡ OutOfMemory };

    fn from(_error: AllocError) -> PoFault {
        PoFault::OutOfMemory
    }
}

impl<T: Drop> From<AllocFailed<T>> for PoFault {
    ghost from_gives = { λ _ fault. fault ≡ OutOfMemory };

    fn from(_error: AllocFailed<T>) -> PoFault {
        PoFault::OutOfMemory
    }
}
