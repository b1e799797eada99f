//! A string spelled as one quoted string.

ghost use Rattle.std.specs.Prelude.{◌≡◌, ◌+◌, ◌≤◌, ◌++◌, ℕ, List, length, true, IsOk, OnOk, OnErr, IfErr};
ghost use Rattle.std.specs.List.{prefix_len};
ghost use Rattle.std.specs.Vec.{vec_len, vec_capacity};
ghost use Rattle.po_syntax.specs.declared.fault.PoFault.TheVariants.{OutOfMemory};
ghost use Rattle.po_syntax.specs.Prelude.{is_raw, quoted, written_byte, written_bytes};

use crate::fault::PoError;
use std::alloc::AllocError;

/// Whether a byte stands for itself inside a quoted string that is written.
fn is_raw(byte: u8) -> bool
    ensures { result ≡ is_raw byte }
{
    byte >= 32 && byte != b'"' && byte != b'\\' && byte != 127
}

/// Whether all bytes of a block stand in a quoted string as they are. All are tested, which takes
/// few instructions, since a processor tests several at once.
#[tactic(auto, using(crate::proofs::QuotedForms::raw_more))]
fn is_raw_block(block: &[u8; 16]) -> bool
    ensures { result ≡ true → prefix_len is_raw block.now ≡ length block.now }
{
    let mut are_raw = true;
    for byte in block {
        are_raw &= is_raw(*byte);
    }
    are_raw
}

/// Splits off the bytes that are written as they are.
fn split_raw(bytes: &[u8]) -> (&[u8], &[u8])
    ensures parts { result.0.now ++ result.1.now ≡ bytes.now }
    ensures raw { written_bytes result.0.now ≡ result.0.now }
{
    let mut rest = bytes;
    while let Some((block, after)) = rest.split_first_chunk::<16>() {
        if !is_raw_block(block) {
            break;
        }
        rest = after;
    }
    let count = rest.iter().take_while(|b| is_raw(**b)).count();
    bytes.split_at(bytes.len() - rest.len() + count)
}

/// Appends what is written for one byte.
#[tactic(auto, unfolding(crate::specs::Quoting::written_byte))]
fn write_byte(byte: u8, out: &mut Vec<u8>) -> Result<(), AllocError>
    ensures ok { OnOk result (out.new.items ≡ out.old.items ++ written_byte byte) }
    ensures unchanged { OnErr result (out.new.items ≡ out.old.items) }
    ensures len { OnOk result (vec_len out.new ≡ vec_len out.old + length (written_byte byte)) }
    ensures capacity { vec_capacity out.old ≤ vec_capacity out.new }
    ensures room { vec_len out.old + length (written_byte byte) ≤ vec_capacity out.old → IsOk result }
{
    match byte {
        7 => out.extend_from_slice(b"\\a"),
        8 => out.extend_from_slice(b"\\b"),
        b'\t' => out.extend_from_slice(b"\\t"),
        b'\n' => out.extend_from_slice(b"\\n"),
        11 => out.extend_from_slice(b"\\v"),
        12 => out.extend_from_slice(b"\\f"),
        b'\r' => out.extend_from_slice(b"\\r"),
        b'"' => out.extend_from_slice(b"\\\""),
        b'\\' => out.extend_from_slice(b"\\\\"),
        0..32 | 127 => out.extend_from_slice(&[
            b'\\',
            b'0' + byte / 64,
            b'0' + byte / 8 % 8,
            b'0' + byte % 8,
        ]),
        _ => out.extend_from_slice(&[byte]),
    }
}

/// Appends the quoted form, or some of it where it is refused. Where there is room for it, nothing
/// is refused.
fn write_quoted(bytes: &[u8], out: &mut Vec<u8>) -> Result<(), AllocError>
    ensures ok { OnOk result (out.new.items ≡ out.old.items ++ quoted bytes.now) }
    ensures some { (written : List ℕ) × (out.new.items ≡ out.old.items ++ written) }
    ensures room { vec_len out.old + length (quoted bytes.now) ≤ vec_capacity out.old → IsOk result }
{
    out.extend_from_slice(b"\"")?;
    let mut rest = bytes;
    loop {
        let (raw, special) = split_raw(rest);
        out.extend_from_slice(raw)?;
        let Some((byte, after)) = special.split_first() else {
            break;
        };
        write_byte(*byte, out)?;
        rest = after;
    }
    out.extend_from_slice(b"\"")
}

/// Appends the quoted form of a text, as PO files are written (manual, "The Format of PO Files").
/// Refused only where an allocation failed; then `out` is as it was.
pub fn quote(bytes: &[u8], out: &mut Vec<u8>) -> Result<(), PoError>
    ensures ok { OnOk result (out.new.items ≡ out.old.items ++ quoted bytes.now) }
    ensures unchanged { OnErr result (out.new.items ≡ out.old.items) }
    ensures memory { IfErr result (λ e. e ≡ record { kind = OutOfMemory; line = 0 }) }

    // Where there is room for it, nothing is refused.
    ensures room { vec_len out.old + length (quoted bytes.now) ≤ vec_capacity out.old → IsOk result }
{
    let len = out.len();
    if let Err(error) = write_quoted(bytes, out) {
        out.truncate(len);
        return Err(error.into());
    }
    Ok(())
}
