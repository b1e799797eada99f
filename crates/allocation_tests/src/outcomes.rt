//! What comes of a row.

use po_syntax::{PoError, PoFault};

/// What comes of a row.
#[derive(Clone, Copy)]
pub(crate) enum Outcome {
    /// The call answered; whether rightly.
    Answered(bool),
    /// The call was refused; whether since memory was out, with its arguments as they were.
    OutOfMemory(bool),
    /// An allocation failed before the call.
    Unready,
    /// There is no row of this name.
    NoRow,
}

/// Whether an error of the PO crates is out of memory, which is on no line.
pub(crate) fn is_memory(error: PoError) -> bool {
    error.kind == PoFault::OutOfMemory && error.line == 0
}

/// What comes of a call that answers bytes.
pub(crate) fn of_bytes(reported: Result<Vec<u8>, PoError>, wanted: &[u8]) -> Outcome {
    match reported {
        Ok(bytes) => Outcome::Answered(bytes.as_slice() == wanted),
        Err(error) => Outcome::OutOfMemory(is_memory(error)),
    }
}
