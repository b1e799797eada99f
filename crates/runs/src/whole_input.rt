//! Reading a whole input.
ghost use Rattle.std.specs.Prelude.{◌≡◌, ◌≢◌, ◌+◌, ◌-◌, ◌^◌, ◌<◌, ◌≤◌, take, drop, vec_len, IfOk, OnOk, IfSome, IsErrOf, Err};
ghost use Rattle.std.specs.Io.KnownBytes.{Consumes, IsAtEnd};
ghost use Rattle.runs.specs.Prelude.{failure_of_read, call_limit, input_limit};

use crate::device::ByteIn;
use crate::inputs::InputFault;
use crate::tool_fault::ToolFault;
use std::alloc::{AllocError, Global};
use std::io;

/// How many bytes of an input are read at most: 2,147,483,648.
pub const INPUT_LIMIT: usize = 1 << 31;

/// How many bytes are made room for at a time: 64 KB, which are still in a processor's cache when
/// they are read into.
const ROOM_LEN: usize = 1 << 16;

/// The whole input, or its first `INPUT_LIMIT` bytes where it has more. A `ReadFault` comes where
/// a call of the reader failed.
pub fn read_input<R: ByteIn>(alloc: Global, reader: &mut R) -> Result<Vec<u8>, ToolFault>
    requires calls { R.calls reader.old < 2 ^ 63 }
    requires failures { R.failures reader.old < 2 ^ 63 }
    ensures input { IfOk result (λ v. IfSome (R.remaining reader.old)
        (λ xs. v.items ≡ take input_limit xs)) }

    // Just these bytes are gone from the reader.
    ensures left { IfOk result (λ v. Consumes (R.remaining reader.old) (R.remaining reader.new) v.items) }
    ensures no_failure { OnOk result (R.failures reader.new ≡ R.failures reader.old) }
    ensures read_fault { IsErrOf result ToolFault.ReadFault
        → R.failures reader.new ≡ R.failures reader.old + 1 }
    ensures out_of_memory { IsErrOf result ToolFault.OutOfMemory
        → R.failures reader.new ≡ R.failures reader.old }
    ensures no_write_fault { result ≢ Err ToolFault.WriteFault }
    ensures calls { R.calls reader.new ≤ R.calls reader.old + call_limit }

    // Each call but the last gave a byte at least, so that none comes after the end.
    ensures end { IfOk result (λ v. R.calls reader.new ≤ R.calls reader.old + vec_len v + 1) }
{
    let mut input = Vec::new(alloc);
    match read_whole(reader, &mut input, 0) {
        Ok(()) => Ok(input),
        Err(InputFault::OutOfMemory) => Err(ToolFault::OutOfMemory),
        Err(_) => Err(ToolFault::ReadFault),
    }
}

/// Appends the bytes that are left of an open file or of standard input, but no more than
/// `INPUT_LIMIT`. `expected_len` is how many are expected, 0 where that isn't known: memory for all
/// of them is taken before the first call of the reader. A `ReadFault` comes where a call of the
/// reader failed.
#[inline(never)]
pub fn read_whole<R: ByteIn>(
    reader: &mut R,
    bytes: &mut Vec<u8>,
    expected_len: u64,
) -> Result<(), InputFault>
    requires calls { R.calls reader.old < 2 ^ 63 }
    requires failures { R.failures reader.old < 2 ^ 63 }
    ensures before { take (vec_len bytes.old) bytes.new.items ≡ bytes.old.items }
    ensures bytes { OnOk result (IfSome (R.remaining reader.old)
        (λ all. drop (vec_len bytes.old) bytes.new.items ≡ take input_limit all)) }
    ensures left { OnOk result (Consumes (R.remaining reader.old) (R.remaining reader.new)
        (drop (vec_len bytes.old) bytes.new.items)) }
    ensures no_failure { OnOk result (R.failures reader.new ≡ R.failures reader.old) }
    ensures read_fault { IsErrOf result InputFault.ReadFault → R.failures reader.new ≡ R.failures reader.old + 1 }
    ensures out_of_memory { IsErrOf result InputFault.OutOfMemory → R.failures reader.new ≡ R.failures reader.old }
    ensures opened { result ≢ Err InputFault.CannotOpen }
    ensures calls { R.calls reader.new ≤ R.calls reader.old + call_limit }

    // Each call but the last gave a byte at least, so that none comes after the end.
    ensures end { OnOk result (R.calls reader.new + vec_len bytes.old ≤ R.calls reader.old + vec_len bytes.new + 1) }
{
    let start = bytes.len();
    let expected_len = expected_len.min(INPUT_LIMIT as u64) as usize;
    if expected_len > 0 {
        // One byte more, so that the end of the input is seen without further memory.
        bytes.reserve(expected_len.saturating_add(1))?;
    }
    let mut count = 0;
    while count < INPUT_LIMIT {
        let filled = start + count;
        make_room(bytes, filled, INPUT_LIMIT - count)?;
        match pull_after(reader, bytes, filled) {
            Ok(0) => {
                bytes.truncate(filled);
                return Ok(());
            }
            Ok(more) => count += more,
            Err(_) => return Err(InputFault::ReadFault),
        }
    }
    Ok(())
}

/// Makes `bytes` longer than `filled`, by `most` at most, where it has memory by no more than that.
fn make_room(bytes: &mut Vec<u8>, filled: usize, most: usize) -> Result<(), AllocError>
    requires filled { filled ≤ vec_len bytes.old }
    requires most { 0 < most }
    requires len { vec_len bytes.old ≤ filled + most }
    ensures within { filled ≤ vec_len bytes.new }
    ensures len { vec_len bytes.new ≤ filled + most }
    ensures front { take filled bytes.new.items ≡ take filled bytes.old.items }
    ensures room { OnOk result (filled < vec_len bytes.new) }
{
    if filled < bytes.len() {
        return Ok(());
    }
    let room = match bytes.capacity().saturating_sub(filled) {
        0 => ROOM_LEN,
        spare => spare.min(ROOM_LEN),
    };
    bytes.resize(filled + room.min(most), 0)
}

/// One call of the reader, for what comes after the first `filled` bytes.
fn pull_after<R: ByteIn>(reader: &mut R, bytes: &mut Vec<u8>, filled: usize) -> io::Result<usize>
    requires calls { R.calls reader.old < 2 ^ 64 - 1 }
    requires failures { R.failures reader.old < 2 ^ 64 - 1 }
    requires room { filled < vec_len bytes.old }
    ensures len { vec_len bytes.new ≡ vec_len bytes.old }
    ensures front { take filled bytes.new.items ≡ take filled bytes.old.items }
    ensures fits { IfOk result (λ n. filled + n ≤ vec_len bytes.new) }
    ensures bytes { IfOk result (λ n. Consumes (R.remaining reader.old) (R.remaining reader.new)
        (take n (drop filled bytes.new.items))) }
    ensures end { IfOk result (λ n. n ≡ 0 → IsAtEnd (R.remaining reader.new)) }
    ensures counts { R.calls reader.new ≡ R.calls reader.old + 1 }
    ensures fails { R.failures reader.new ≡ R.failures reader.old + failure_of_read result }
{
    reader.pull(&mut bytes.as_mut_slice()[filled..])
}
