//! Readers and writers that count their calls and failures, and how a whole piece is written.
ghost use Rattle.std.specs.Prelude.{◌≡◌, ◌≢◌, ℕ, ◌+◌, ◌-◌, ◌^◌, ◌<◌, List, [], None, Option, OnOk, OnErr, Err};
ghost use Rattle.std.specs.Io.{ReadsAtMost, WritesAtMost};
ghost use Rattle.std.specs.Io.KnownBytes.{Appends, ReadConsumes, WriteAppends};
ghost use Rattle.runs.specs.Prelude.{AppendsPrefix, Gives, GivesFirst, failure_of_read, failure_of_write, counted_inner, counted_calls, counted_failures};

use crate::tool_fault::ToolFault;
use std::io::{self, Read, Write};

/// A reader that counts its calls, and those that failed.
pub trait ByteIn {
    // The bytes that calls will give from here on, where they are known.
    ghost remaining: { Self → Option (List ℕ) };

    // How often it was called.
    ghost calls: { Self → ℕ };

    // How many of the calls failed.
    ghost failures: { Self → ℕ };

    /// Reads as `Read::read` does: `Ok(n)` gives the first n bytes of `buf`, and no byte only at
    /// the end of the input or where `buf` is empty.
    fn pull(&mut self, buf: &mut [u8]) -> io::Result<usize>
        requires calls { calls self.old < 2 ^ 64 - 1 }
        requires failures { failures self.old < 2 ^ 64 - 1 }
        ensures bound { ReadsAtMost result buf.new }
        ensures bytes { ReadConsumes (remaining self.old) (remaining self.new) result buf.new }
        ensures counts { calls self.new ≡ calls self.old + 1 }
        ensures fails { failures self.new ≡ failures self.old + failure_of_read result };
}

/// A writer that counts the calls that failed.
pub trait ByteOut {
    // The bytes that the writer has taken, where they are known.
    ghost contents: { Self → Option (List ℕ) };

    // How many calls failed.
    ghost failures: { Self → ℕ };

    // The pieces that calls were given so far, where they are known.
    ghost given: { Self → Option (List (List ℕ)) };

    /// Writes as `Write::write` does: `Ok(n)` took the first n bytes of `piece`. A call that takes
    /// no byte of a piece that isn't empty counts as one that failed.
    fn put(&mut self, piece: &[u8]) -> io::Result<usize>
        requires { failures self.old < 2 ^ 64 - 1 }
        ensures bound { WritesAtMost result piece.now }
        ensures bytes { WriteAppends (contents self.old) (contents self.new) result piece.now }
        ensures fails { failures self.new ≡ failures self.old + failure_of_write result piece.now }
        ensures given { Gives (given self.old) (given self.new) piece.now };
}

/// A reader with counts of its calls and of those that failed, or a writer with a count of the
/// calls that failed: a `ByteIn` over any `Read`, a `ByteOut` over any `Write`.
#[derive(Drop)]
pub struct Counted<D> {
    inner: D,
    calls: u64,
    failures: u64,
}

impl<D> Counted<D> {
    /// The device with no call counted yet.
    pub fn new(inner: D) -> Self
        ensures inner { counted_inner result ≡ inner }
        ensures calls { counted_calls result ≡ 0 }
        ensures failures { counted_failures result ≡ 0 }
    {
        Counted {
            inner,
            calls: 0,
            failures: 0,
        }
    }

    /// The device itself, as its calls have left it.
    pub fn into_inner(self) -> D
        ensures { result ≡ counted_inner self }
    {
        self.inner
    }
}

impl<R: Read> ByteIn for Counted<R> {
    ghost remaining = { λ r. R.remaining (counted_inner r) };

    ghost calls = { λ r. counted_calls r };

    ghost failures = { λ r. counted_failures r };

    fn pull(&mut self, buf: &mut [u8]) -> io::Result<usize> {
        self.calls += 1;
        let outcome = self.inner.read(buf);
        if outcome.is_err() {
            self.failures += 1;
        }
        outcome
    }
}

impl<W: Write> ByteOut for Counted<W> {
    ghost contents = { λ w. W.contents (counted_inner w) };

    ghost failures = { λ w. counted_failures w };

    ghost given = { λ _. None };

    fn put(&mut self, piece: &[u8]) -> io::Result<usize> {
        let outcome = self.inner.write(piece);
        let failed = match &outcome {
            Ok(taken) => *taken == 0 && !piece.is_empty(),
            Err(_) => true,
        };
        if failed {
            self.failures += 1;
        }
        outcome
    }
}

/// Writes all of `piece`, in as many calls as the writer wants. A `WriteFault` comes where a call
/// failed, or took no byte, and then a prefix of `piece` has gone out.
pub fn put_all<W: ByteOut>(writer: &mut W, piece: &[u8]) -> Result<(), ToolFault>
    requires failures { W.failures writer.old < 2 ^ 64 - 1 }
    ensures ok { OnOk result (Appends (W.contents writer.old) (W.contents writer.new) piece.now) }
    ensures prefix { OnErr result (AppendsPrefix
        (W.contents writer.old) (W.contents writer.new) piece.now) }
    ensures fault { OnErr result (result ≡ Err ToolFault.WriteFault) }
    ensures no_failure { OnOk result (W.failures writer.new ≡ W.failures writer.old) }
    ensures cause { OnErr result (W.failures writer.new ≡ W.failures writer.old + 1) }

    // A piece without a byte is written without a call.
    ensures nothing { piece.now ≡ [] → writer.new ≡ writer.old }

    // Another is given whole to the first call.
    ensures first { piece.now ≢ [] → GivesFirst (W.given writer.old) (W.given writer.new) piece.now }
{
    let mut at = 0;
    while at < piece.len() {
        match writer.put(&piece[at..]) {
            Ok(0) => return Err(ToolFault::WriteFault),
            Ok(taken) => at += taken,
            Err(_) => return Err(ToolFault::WriteFault),
        }
    }
    Ok(())
}
