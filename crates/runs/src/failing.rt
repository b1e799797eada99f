//! A reader or writer over memory that fails as a test wants it to.
ghost use Rattle.std.specs.Prelude.{◌≡◌, ◌≢◌, ◌↔◌, ◌-◌, ◌==◌, IsTrue, IfOk, IfErr, IsErr, Ok, Some, length, min, max, if◌then◌else◌};
ghost use Rattle.std.specs.Io.{ReadsAtMost, WritesAtMost};
ghost use Rattle.std.specs.Io.KnownBytes.{ReadConsumes, WriteAppends};
ghost use Rattle.std.specs.IoError.{error_kind};
ghost use Rattle.runs.specs.Prelude.{calls_after, failing_inner, failing_calls_before, failing_most_bytes};

use std::io::{self, ErrorKind, Read, Write};

/// A reader or writer over one in memory that fails at a chosen call, or moves few bytes a call,
/// so that a test sees what a tool leaves.
#[derive(Drop)]
pub struct Failing<D> {
    inner: D,
    // How many calls come before the one that fails, where one is still to fail.
    calls_before: Option<u64>,
    most_bytes: usize,
}

impl<D> Failing<D> {
    /// The device that fails at the call of this number, counted from 1, and at no other; with 0 no
    /// call fails. Each other call moves `most_bytes` bytes at most; a reader moves one where
    /// `most_bytes` is 0.
    pub fn new(inner: D, failing_call: u64, most_bytes: usize) -> Self
        ensures inner { failing_inner result ≡ inner }
        ensures call { failing_calls_before result
            ≡ (if failing_call == 0 then None else Some (failing_call - 1)) }
        ensures most_bytes { failing_most_bytes result ≡ most_bytes }
    {
        Failing {
            inner,
            calls_before: failing_call.checked_sub(1),
            most_bytes,
        }
    }

    /// The device below, as the calls have left it.
    pub fn into_inner(self) -> D
        ensures { result ≡ failing_inner self }
    {
        self.inner
    }

    /// Counts a call, and says whether it is the one that fails.
    fn fails_now(&mut self) -> bool
        ensures now { IsTrue result ↔ (failing_calls_before self.old ≡ Some 0) }
        ensures counts { failing_calls_before self.new ≡ calls_after (failing_calls_before self.old) }
        ensures inner { failing_inner self.new ≡ failing_inner self.old }
        ensures most_bytes { failing_most_bytes self.new ≡ failing_most_bytes self.old }
    {
        match self.calls_before {
            None => false,
            Some(0) => {
                self.calls_before = None;
                true
            }
            Some(calls) => {
                self.calls_before = Some(calls - 1);
                false
            }
        }
    }
}

impl Read for Failing<&[u8]> {
    ghost remaining = { λ r. Some (failing_inner r).now };

    fn read(&mut self, buf: &mut [u8]) -> io::Result<usize>
        ensures bound { ReadsAtMost result buf.new }
        ensures bytes { ReadConsumes (Some (failing_inner self.old).now) (Some (failing_inner self.new).now) result
            buf.new }
        ensures fails { failing_calls_before self.old ≡ Some 0 → IsErr result }
        ensures moves { failing_calls_before self.old ≢ Some 0 → result
            ≡ Ok (min (length (failing_inner self.old).now) (min (length buf.old) (max (failing_most_bytes self.old) 1))) }
        ensures counts { failing_calls_before self.new ≡ calls_after (failing_calls_before self.old) }
        ensures most_bytes { failing_most_bytes self.new ≡ failing_most_bytes self.old }
    {
        if self.fails_now() {
            return Err(io::Error::from(ErrorKind::Other));
        }
        let room = buf.len().min(self.most_bytes.max(1));
        self.inner.read(&mut buf[..room])
    }
}

impl Write for Failing<Vec<u8>> {
    ghost contents = { λ w. Some (failing_inner w).items };

    fn write(&mut self, piece: &[u8]) -> io::Result<usize>
        ensures bound { WritesAtMost result piece.now }
        ensures bytes { WriteAppends (Some (failing_inner self.old).items) (Some (failing_inner self.new).items)
            result piece.now }
        ensures fails { failing_calls_before self.old ≡ Some 0 → IsErr result }

        // Any other call fails only where the allocation failed.
        ensures memory { failing_calls_before self.old ≢ Some 0
            → IfErr result (λ e. error_kind e ≡ ErrorKind.OutOfMemory) }
        ensures moves { IfOk result (λ taken. taken ≡ min (length piece.now) (failing_most_bytes self.old)) }
        ensures counts { failing_calls_before self.new ≡ calls_after (failing_calls_before self.old) }
        ensures most_bytes { failing_most_bytes self.new ≡ failing_most_bytes self.old }
    {
        if self.fails_now() {
            return Err(io::Error::from(ErrorKind::Other));
        }
        let taken = piece.len().min(self.most_bytes);
        self.inner.write(&piece[..taken])
    }

    fn flush(&mut self) -> io::Result<()> {
        self.inner.flush()
    }
}
