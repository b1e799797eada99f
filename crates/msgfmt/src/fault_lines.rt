//! Why inputs aren't compiled, and what the check finds, as the line that reports it, and as the
//! run of it.
ghost use Rattle.std.specs.Prelude.{◌≡◌, ◌≢◌, ◌++◌, IfOk, OnOk};
ghost use Rattle.msgfmt.specs.Prelude.{refusal, run_view, slice_texts};
ghost use Rattle.msgfmt.specs.Msgfmt as Spec;

use crate::profile::CheckFault;
use po_entry::JoinError;
use po_syntax::PoFault;
use runs::{Run, push_numbered, push_po_text, reported};
use std::alloc::{AllocError, Global};

/// The name of an input, of those of all.
fn input_name<'a>(names: &[&'a str], input: u32) -> &'a str
    ensures { result.now ≡ Spec.input_name (slice_texts names.now) input }
{
    names.get(input as usize).map_or("", |name| name)
}

/// Appends why the inputs aren't compiled.
fn push_join_text(out: &mut Vec<u8>, names: &[&str], error: JoinError) -> Result<(), AllocError>
    ensures { OnOk result (out.new.items ≡ out.old.items ++ Spec.join_text (slice_texts names.now) error) }
{
    match error.error.kind {
        PoFault::Duplicate(line) if error.first_input != error.input => {
            out.extend_from_slice(b"duplicate of the message at ")?;
            out.extend_from_slice(input_name(names, error.first_input).as_bytes())?;
            push_numbered(out, ":", line.into(), "")
        }
        fault => push_po_text(out, fault),
    }
}

/// Appends what is wrong with the messages that are compiled.
fn push_check_text(out: &mut Vec<u8>, fault: CheckFault) -> Result<(), AllocError>
    ensures { OnOk result (out.new.items ≡ out.old.items ++ Spec.check_text fault) }
{
    let text = match fault {
        CheckFault::NoHeader => "no header",
        CheckFault::NoRule(..) => "no readable plural rule",
        CheckFault::FormCount(_) => "wrong number of plural forms",
        CheckFault::LeadingNewline(_) => "first newline differs",
        CheckFault::TrailingNewline(_) => "last newline differs",
        CheckFault::Undefined(count) => {
            return push_numbered(out, "plural rule undefined for ", count, "");
        }
        CheckFault::IndexOutside(count) => {
            return push_numbered(out, "plural rule too large for ", count, "");
        }
        CheckFault::OutOfMemory => "out of memory",
    };
    out.extend_from_slice(text.as_bytes())
}

/// The run of inputs that aren't compiled.
pub(crate) fn refused_run(
    alloc: Global,
    names: &[&str],
    error: JoinError,
) -> Result<Run, AllocError>
    ensures { IfOk result (λ run. (error.error.kind ≢ PoFault.OutOfMemory)
        × (run_view run ≡ refusal (Spec.join_line (slice_texts names.now) error))) }
{
    if error.error.kind == PoFault::OutOfMemory {
        return Err(AllocError);
    }
    let mut text = Vec::new(alloc);
    push_join_text(&mut text, names, error)?;
    let name = input_name(names, error.input);
    reported(alloc, "msgfmt", name, error.error.line, &text)
}

/// The run of inputs that the check refuses.
pub(crate) fn failed_check_run(
    alloc: Global,
    names: &[&str],
    input: u32,
    fault: CheckFault,
) -> Result<Run, AllocError>
    ensures { IfOk result (λ run. (fault ≢ CheckFault.OutOfMemory)
        × (run_view run ≡ refusal (Spec.check_line (slice_texts names.now) (input, fault)))) }
{
    if fault == CheckFault::OutOfMemory {
        return Err(AllocError);
    }
    let mut text = Vec::new(alloc);
    push_check_text(&mut text, fault)?;
    let name = input_name(names, input);
    let line = match fault {
        CheckFault::NoRule(line, _)
        | CheckFault::FormCount(line)
        | CheckFault::LeadingNewline(line)
        | CheckFault::TrailingNewline(line) => line,
        _ => 0,
    };
    reported(alloc, "msgfmt", name, line, &text)
}
