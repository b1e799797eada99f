//! What msgunfmt writes and reports: the PO text of an MO file.
ghost use Rattle.std.specs.Prelude.{◌≡◌, ◌++◌, IfOk, OnOk, OnErr, Err};
ghost use Rattle.msgunfmt.specs.Prelude.{IsMsgunfmtRun, run_view, unformat_text};

use crate::fault::UnformatError;
use crate::unformatting::unformat;
use runs::{Run, ToolFault, push_mo_text, push_numbered, reported, written};
use std::alloc::{AllocError, Global};

/// Appends why a file has no PO text.
fn push_unformat_text(out: &mut Vec<u8>, error: UnformatError) -> Result<(), AllocError>
    ensures { OnOk result (out.new.items ≡ out.old.items ++ unformat_text error) }
{
    let text = match error {
        UnformatError::Mo(fault) => return push_mo_text(out, fault),
        UnformatError::NotUtf8(i) => {
            return push_numbered(out, "string ", i.into(), " is not UTF-8");
        }
        UnformatError::ForbiddenByte(i) => {
            return push_numbered(out, "string ", i.into(), " has a forbidden byte");
        }
        UnformatError::ForeignCharset => "charset is not UTF-8",
        UnformatError::OutOfMemory => "out of memory",
    };
    out.extend_from_slice(text.as_bytes())
}

/// What `msgunfmt` writes and reports of a file with this name: its PO text, where it has a
/// message. A file that has no text is reported by one line, with status 1. Refused only where an
/// allocation failed.
pub fn plan_msgunfmt(alloc: Global, bytes: &[u8], name: &str) -> Result<Run, ToolFault>
    ensures run { IfOk result (λ run. IsMsgunfmtRun (record { name = name.now; bytes = bytes.now }) (run_view run)) }
    ensures memory { OnErr result (result ≡ Err ToolFault.OutOfMemory) }
{
    match unformat(alloc, bytes) {
        Ok(text) => Ok(written(alloc, text)),
        Err(error) => {
            if error == UnformatError::OutOfMemory {
                return Err(ToolFault::OutOfMemory);
            }
            let mut text = Vec::new(alloc);
            push_unformat_text(&mut text, error)?;
            Ok(reported(alloc, "msgunfmt", name, 0, &text)?)
        }
    }
}
