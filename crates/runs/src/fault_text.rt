//! The texts of faults, the line that reports one, and the run of a tool that refuses an input.
ghost use Rattle.std.specs.Prelude.{◌≡◌, ◌≢◌, ◌++◌, decimal, IfOk, OnOk};
ghost use Rattle.runs.specs.Prelude.{fault_line, location, mo_text, po_text, refusal, run_view, text_line};

use crate::run::Run;
use itoa::Buffer;
use mo_file::MoError;
use po_syntax::{PoError, PoFault};
use std::alloc::{AllocError, Global};

/// Appends a text with a number in it.
pub fn push_numbered(
    out: &mut Vec<u8>,
    before: &str,
    number: u64,
    after: &str,
) -> Result<(), AllocError>
    ensures { OnOk result (out.new.items ≡ out.old.items ++ (before.now ++ decimal number ++ after.now)) }
{
    let mut digits = Buffer::new();
    out.extend_from_slice(before.as_bytes())?;
    out.extend_from_slice(digits.format(number).as_bytes())?;
    out.extend_from_slice(after.as_bytes())
}

/// Appends what is wrong with a PO text.
pub fn push_po_text(out: &mut Vec<u8>, fault: PoFault) -> Result<(), AllocError>
    ensures { OnOk result (out.new.items ≡ out.old.items ++ po_text fault) }
{
    match fault {
        PoFault::NotUtf8 => out.extend_from_slice(b"not UTF-8"),
        PoFault::BadToken => out.extend_from_slice(b"unexpected byte or word"),
        PoFault::UnterminatedString => out.extend_from_slice(b"string not closed"),
        PoFault::BadEscape => out.extend_from_slice(b"bad escape"),
        PoFault::ForbiddenByte => out.extend_from_slice(b"forbidden byte"),
        PoFault::BadOrder => out.extend_from_slice(b"keyword or text out of order"),
        PoFault::BadPluralIndex => out.extend_from_slice(b"wrong plural index"),
        PoFault::MixedObsolete => out.extend_from_slice(b"live and obsolete lines mixed"),
        PoFault::Duplicate(line) => {
            push_numbered(out, "duplicate of the message at line ", line.into(), "")
        }
        PoFault::ForeignCharset => out.extend_from_slice(b"charset is not UTF-8"),
        PoFault::TooLarge => out.extend_from_slice(b"too large"),
        PoFault::OutOfMemory => out.extend_from_slice(b"out of memory"),
    }
}

/// Appends what is wrong with an MO file.
pub fn push_mo_text(out: &mut Vec<u8>, fault: MoError) -> Result<(), AllocError>
    ensures { OnOk result (out.new.items ≡ out.old.items ++ mo_text fault) }
{
    match fault {
        MoError::TooShort => out.extend_from_slice(b"file too short"),
        MoError::BadMagic => out.extend_from_slice(b"bad magic number"),
        MoError::BadRevision => out.extend_from_slice(b"unknown revision"),
        MoError::TableOutside => out.extend_from_slice(b"table outside the file"),
        MoError::StringOutside(i) => {
            push_numbered(out, "string ", i.into(), " outside the file")
        }
        MoError::NoTerminator(i) => {
            push_numbered(out, "string ", i.into(), " without a final NUL")
        }
        MoError::NotSorted(i) => push_numbered(out, "string ", i.into(), " out of order"),
    }
}

/// Appends what a fault line begins with: `pokit TOOL: FILE:LINE: `, without `:LINE` for line 0.
pub fn push_location(out: &mut Vec<u8>, tool: &str, file: &str, line: u32) -> Result<(), AllocError>
    ensures { OnOk result (out.new.items ≡ out.old.items ++ location tool.now file.now line) }
{
    out.extend_from_slice(b"pokit ")?;
    out.extend_from_slice(tool.as_bytes())?;
    out.extend_from_slice(b": ")?;
    out.extend_from_slice(file.as_bytes())?;
    if line != 0 {
        push_numbered(out, ":", line.into(), "")?;
    }
    out.extend_from_slice(b": ")
}

/// The run of a tool that refuses an input: nothing is written, and one line reports the fault of
/// this text, with status 1.
pub fn reported(
    alloc: Global,
    tool: &str,
    name: &str,
    line: u32,
    text: &[u8],
) -> Result<Run, AllocError>
    ensures { IfOk result (λ run. run_view run ≡ refusal (fault_line tool.now name.now line text.now)) }
{
    let mut messages = Vec::new(alloc);
    push_location(&mut messages, tool, name, line)?;
    messages.extend_from_slice(text)?;
    messages.extend_from_slice(b"\n")?;
    Ok(Run {
        output: Vec::new(alloc),
        create: false,
        messages,
        status: 1,
    })
}

/// The run of a tool that refuses a text: one line that reports the fault.
pub fn refused_text(
    alloc: Global,
    tool: &str,
    name: &str,
    error: PoError,
) -> Result<Run, AllocError>
    ensures run { IfOk result (λ run. (error.kind ≢ PoFault.OutOfMemory)
        × (run_view run ≡ refusal (text_line tool.now name.now error))) }
{
    if error.kind == PoFault::OutOfMemory {
        return Err(AllocError);
    }
    let mut text = Vec::new(alloc);
    push_po_text(&mut text, error.kind)?;
    reported(alloc, tool, name, error.line, &text)
}
