//! The faults of a tool's surroundings: of its reader, its writers and the allocator.
ghost use Rattle.std.specs.Prelude.{◌≡◌};
ghost use Rattle.runs.specs.declared.tool_fault.ToolFault.TheVariants.{OutOfMemory};

use std::alloc::{AllocError, AllocFailed};
use thiserror::Error;

/// Why a tool stopped, whatever its input says.
#[derive(Clone, Copy, Debug, PartialEq, Eq, Error)]
pub enum ToolFault {
    /// A read failed, or a reader was called as often as it may be and came to no end.
    #[error("read fault")]
    ReadFault,
    /// A write failed, or took no byte of a piece that isn't empty.
    #[error("write fault")]
    WriteFault,
    /// An allocation failed.
    #[error("out of memory")]
    OutOfMemory,
}

impl From<AllocError> for ToolFault {
    ghost from_gives = { λ _ fault. fault ≡ OutOfMemory };

    fn from(_error: AllocError) -> ToolFault {
        ToolFault::OutOfMemory
    }
}

impl<T: Drop> From<AllocFailed<T>> for ToolFault {
    ghost from_gives = { λ _ fault. fault ≡ OutOfMemory };

    fn from(_failed: AllocFailed<T>) -> ToolFault {
        ToolFault::OutOfMemory
    }
}
