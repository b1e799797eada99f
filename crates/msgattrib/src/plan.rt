//! What msgattrib writes and reports: the selected entries of a PO text.
ghost use Rattle.std.specs.Prelude.{◌≡◌, IfOk, OnErr, Err};
ghost use Rattle.msgattrib.specs.Prelude.{IsMsgattribRun, run_view};

use crate::selected_text::selected_text;
use crate::selection::Selection;
use runs::{Run, ToolFault, refused_text, written};
use std::alloc::Global;

/// What `msgattrib` writes and reports of a text with its name: the selected entries, changed as
/// the selection says. A file is made where an entry is selected. A text that is refused is
/// reported by one line, with status 1. So is a duplicate among the selected entries, without a
/// line number. Refused only where an allocation failed.
pub fn plan_msgattrib(
    alloc: Global,
    text: &[u8],
    name: &str,
    selection: &Selection,
) -> Result<Run, ToolFault>
    ensures run { IfOk result (λ run. IsMsgattribRun name.now selection.now text.now (run_view run)) }
    ensures memory { OnErr result (result ≡ Err ToolFault.OutOfMemory) }
{
    match selected_text(alloc, text, selection) {
        Ok(output) => Ok(written(alloc, output)),
        Err(error) => Ok(refused_text(alloc, "msgattrib", name, error)?),
    }
}
