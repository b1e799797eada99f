//! Substitution of a whole input ("Invoking the envsubst program" of the GNU gettext manual).
ghost use Rattle.std.specs.Prelude.{◌≡◌, ◌+◌, ◌^◌, ◌<◌, ◌≤◌, ◌≢◌, ◌++◌, [], None, Some, length, false, IfOk, IfSome, OnOk, OnErr, Err, ℕ, List, map, option_map};
ghost use Rattle.envsubst.specs.Prelude.{ReadsFail, write_failures, EndsAs, Advances, Stops, is_replaced, names_given, values_of_substituter, values_of_slices};

use crate::substituter::Substituter;
use runs::{ByteIn, ByteOut, Counted, ToolFault, put_all};
use std::alloc::{AllocError, Global};

/// How often a run calls its reader at most, once for each piece: 4,294,967,296 times.
pub const MOST_READS: u64 = 1 << 32;

/// How many bytes a call of the reader may give: 64 KB.
const BUFFER_LEN: usize = 1 << 16;

/// How many bytes of output are gathered for a call of the writer: 64 KB.
const BLOCK_LEN: usize = 1 << 16;

/// How many bytes the parts of a piece become that are gathered at once, 1 MB or so: a part has one
/// byte at least, which can become the longest value.
const GATHERED_LEN: usize = 1 << 20;

/// Writes the input with its references replaced, as [`Substituter`] replaces them. A `ReadFault`
/// comes where a call of the reader failed, or `MOST_READS` calls gave no end of the input.
#[inline(never)]
pub fn run_envsubst<R: ByteIn, W: ByteOut>(
    reader: &mut R,
    writer: &mut W,
    vars: &[(&[u8], &[u8])],
    only: Option<&[&[u8]]>,
) -> Result<(), ToolFault>
    requires calls { R.calls reader.old < 2 ^ 63 }
    requires read_failures { R.failures reader.old < 2 ^ 63 }
    requires write_failures { W.failures writer.old < 2 ^ 63 }

    // All of it; after a fault of the reader all of what was read, but for a reference that may go
    // on; or after another fault a prefix.
    ensures output { EndsAs (values_of_slices vars.now only.entry) (R.remaining reader.old) (R.remaining reader.new)
        (W.contents writer.old) (W.contents writer.new) result }
    ensures read_failures { ReadsFail result (R.calls reader.old) (R.calls reader.new)
        (R.failures reader.old) (R.failures reader.new) }
    ensures write_failures { W.failures writer.new ≡ W.failures writer.old + write_failures result }
    ensures no_memory { result ≢ Err ToolFault.OutOfMemory }
    ensures calls { R.calls reader.new ≤ R.calls reader.old + 2 ^ 32 }

    // Each call but the last gave a byte at least, so that none comes after the end.
    ensures end { OnOk result (IfSome (R.remaining reader.old)
        (λ text. R.calls reader.new ≤ R.calls reader.old + length text + 1)) }
{
    substitute_all(reader, writer, vars, only, None)
}

/// Writes the input with its references replaced, as `run_envsubst` does, and gathers the output in
/// blocks, for a writer of which each call costs much. Variables and names are sorted first, so
/// that each is found by binary search. A block ends with each piece of the input at the latest.
pub fn run_envsubst_in_blocks<R: ByteIn, W: ByteOut>(
    alloc: Global,
    reader: &mut R,
    writer: &mut W,
    vars: &[(&[u8], &[u8])],
    only: Option<&[&[u8]]>,
) -> Result<(), ToolFault>
    requires calls { R.calls reader.old < 2 ^ 63 }
    requires read_failures { R.failures reader.old < 2 ^ 63 }
    requires write_failures { W.failures writer.old < 2 ^ 63 }
    ensures output { EndsAs (values_of_slices vars.now only.entry) (R.remaining reader.old) (R.remaining reader.new)
        (W.contents writer.old) (W.contents writer.new) result }
    ensures read_failures { ReadsFail result (R.calls reader.old) (R.calls reader.new)
        (R.failures reader.old) (R.failures reader.new) }
    ensures write_failures { W.failures writer.new ≡ W.failures writer.old + write_failures result }
    ensures calls { R.calls reader.new ≤ R.calls reader.old + 2 ^ 32 }

    // Each call but the last gave a byte at least, so that none comes after the end.
    ensures end { OnOk result (IfSome (R.remaining reader.old)
        (λ text. R.calls reader.new ≤ R.calls reader.old + length text + 1)) }
{
    // Variables of one name stay in their order, so that the first still counts.
    let mut sorted = Vec::from_slice(alloc, vars)?;
    sorted.sort_by(|a, b| a.0.cmp(b.0))?;
    let names = sorted_names(alloc, only)?;
    let only = names.as_deref();
    let block = Some(Vec::new(alloc));
    substitute_all(reader, writer, sorted.as_slice(), only, block)
}

/// The names in order, where they are given.
fn sorted_names<'a>(
    alloc: Global,
    names: Option<&[&'a [u8]]>,
) -> Result<Option<Vec<&'a [u8]>>, AllocError>
    ensures { IfOk result (λ sorted. (name : List ℕ)
        → is_replaced (option_map (λ names. map (λ n. n.now) names.items) sorted) name
        ≡ is_replaced (names_given names.entry) name) }
{
    let Some(names) = names else {
        return Ok(None);
    };
    let mut sorted = Vec::from_slice(alloc, names)?;
    sorted.sort_unstable_by(|a, b| a.cmp(b));
    Ok(Some(sorted))
}

/// Writes the input with its references replaced, and gathers the output in a block where one is
/// given.
#[inline(never)]
fn substitute_all<R: ByteIn, W: ByteOut>(
    reader: &mut R,
    writer: &mut W,
    vars: &[(&[u8], &[u8])],
    only: Option<&[&[u8]]>,
    block: Option<Vec<u8>>,
) -> Result<(), ToolFault>
    requires calls { R.calls reader.old < 2 ^ 63 }
    requires read_failures { R.failures reader.old < 2 ^ 63 }
    requires write_failures { W.failures writer.old < 2 ^ 63 }
    requires empty { IfSome block (λ b. b.items ≡ []) }
    ensures output { EndsAs (values_of_slices vars.now only.entry) (R.remaining reader.old) (R.remaining reader.new)
        (W.contents writer.old) (W.contents writer.new) result }
    ensures read_failures { ReadsFail result (R.calls reader.old) (R.calls reader.new)
        (R.failures reader.old) (R.failures reader.new) }
    ensures write_failures { W.failures writer.new ≡ W.failures writer.old + write_failures result }
    ensures calls { R.calls reader.new ≤ R.calls reader.old + 2 ^ 32 }

    // Each call but the last gave a byte at least, so that none comes after the end.
    ensures end { OnOk result (IfSome (R.remaining reader.old)
        (λ text. R.calls reader.new ≤ R.calls reader.old + length text + 1)) }
    ensures no_memory { block ≡ None → result ≢ Err ToolFault.OutOfMemory }
{
    // How many bytes of a piece are fed at once, so that what they become doesn't take much memory.
    let longest = vars
        .iter()
        .fold(0, |longest, (_, value)| value.len().max(longest));
    let part_len = (GATHERED_LEN / longest.max(1)).max(1);
    let mut substituter = Substituter::new(vars, only);
    let mut block = block;
    let mut piece = [0; BUFFER_LEN];
    for _ in 0..MOST_READS {
        match reader.pull(&mut piece) {
            Ok(0) => return substituter.finish(writer),
            Ok(count) => {
                block = feed_in_blocks(&mut substituter, block, &piece[..count], part_len, writer)?;
            }
            Err(_) => return Err(ToolFault::ReadFault),
        }
    }
    Err(ToolFault::ReadFault)
}

/// Takes one more piece, with a block in parts of so many bytes. What they become is gathered in
/// it, and all of it is written before it is returned.
fn feed_in_blocks<W: ByteOut>(
    substituter: &mut Substituter<'_>,
    block: Option<Vec<u8>>,
    piece: &[u8],
    part_len: usize,
    writer: &mut W,
) -> Result<Option<Vec<u8>>, ToolFault>
    requires failures { W.failures writer.old < 2 ^ 63 }
    requires sound { substituter.old.has_failed ≡ false }
    requires empty { IfSome block (λ b. b.items ≡ []) }
    requires some { 0 < part_len }
    requires few { length substituter.old.held ≤ 257 }
    ensures ok { OnOk result (Advances (values_of_substituter substituter.old) (substituter.old.held ++ piece.now)
        substituter.new.held (W.contents writer.old) (W.contents writer.new)) }
    ensures stops { OnErr result (Stops (values_of_substituter substituter.old) (substituter.old.held ++ piece.now)
        (W.contents writer.old) (W.contents writer.new)) }
    ensures empty { IfOk result (λ block. IfSome block (λ b. b.items ≡ [])) }
    ensures plain { block ≡ None → IfOk result (λ block. block ≡ None) }
    ensures memory { block ≡ None → OnErr result (result ≡ Err ToolFault.WriteFault) }
    ensures sound { OnOk result (substituter.new.has_failed ≡ false) }
    ensures vars { substituter.new.vars ≡ substituter.old.vars }
    ensures only { substituter.new.only ≡ substituter.old.only }
    ensures failures { W.failures writer.new ≡ W.failures writer.old + write_failures result }
    ensures no_read_fault { result ≢ Err ToolFault.ReadFault }
    ensures few { length substituter.new.held ≤ 257 }
{
    let Some(mut block) = block else {
        substituter.feed(piece, writer)?;
        return Ok(None);
    };
    let mut at = 0;
    while at < piece.len() {
        let end = at + part_len.min(piece.len() - at);
        block = gather(substituter, block, &piece[at..end])?;
        at = end;
        if block.len() >= BLOCK_LEN {
            put_all(writer, &block)?;
            block.clear();
        }
    }
    put_all(writer, &block)?;
    block.clear();
    Ok(Some(block))
}

/// Takes one more part, and appends to `block` what is written of it.
fn gather(
    substituter: &mut Substituter<'_>,
    block: Vec<u8>,
    part: &[u8],
) -> Result<Vec<u8>, ToolFault>
    requires { substituter.old.has_failed ≡ false }
    ensures ok { IfOk result (λ more. Advances (values_of_substituter substituter.old)
        (substituter.old.held ++ part.now) substituter.new.held (Some block.items) (Some more.items)) }
    ensures sound { OnOk result (substituter.new.has_failed ≡ false) }
    ensures vars { substituter.new.vars ≡ substituter.old.vars }
    ensures only { substituter.new.only ≡ substituter.old.only }
    ensures memory { OnErr result (result ≡ Err ToolFault.OutOfMemory) }
    ensures few { length substituter.new.held ≤ 257 }
{
    let mut gathered = Counted::new(block);
    match substituter.feed(part, &mut gathered) {
        Ok(()) => Ok(gathered.into_inner()),
        Err(_) => Err(ToolFault::OutOfMemory),
    }
}
