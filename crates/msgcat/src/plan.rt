//! What msgcat writes and reports: the text of the catalogue that PO texts are merged to; and what
//! it comes to where an input can't be read.
ghost use Rattle.std.specs.Prelude.{◌≡◌, ◌⊎◌, All, Err, IfErr, IfOk, List, MatchOption, None, OnErr, Some, []};
ghost use Rattle.msgcat.specs.Prelude.{AreReadAs, IsMsgcatRun, IsUnread, Lacks, Named, NamedFile, named_files, run_view};
ghost use Rattle.msgcat.specs.Internal.Inputs.{IsReadingOf, IsFirstWithNul};

use crate::input::MergeOptions;
use crate::inputs::{FileFault, read_inputs};
use crate::merge_inputs::MergeInputs;
use crate::merged_text::merged_text;
use memchr::memchr;
use runs::{ProgramFault, Run, ToolFault, refused_text, written};
use std::alloc::{AllocError, Global};

/// The run of inputs, by their entries or by why one isn't read. The text is written over what
/// `room` holds.
pub(crate) fn run_of_read(
    alloc: Global,
    read: Result<MergeInputs<'_>, FileFault<'_>>,
    room: Vec<u8>,
    options: &MergeOptions,
) -> Result<Run, AllocError>
    requires { (files : List NamedFile) × IsReadingOf files read }
    ensures { IfOk result (λ run. (files : List NamedFile) → IsReadingOf files read.entry
        → IsMsgcatRun files options.now (run_view run)) }
{
    let inputs = match read {
        Ok(inputs) => inputs,
        Err(fault) => return refused_text(alloc, "msgcat", fault.name, fault.error),
    };
    match merged_text(alloc, room, &inputs, options) {
        Ok(text) => Ok(written(alloc, text)),
        Err(error) => refused_text(alloc, "msgcat", inputs.first_name(), error),
    }
}

/// What `msgcat` writes and reports of its inputs, each with its name: the text of the catalogue
/// that they are merged to, where it has an entry. The first input that isn't read is reported by
/// one line, with status 1; else a merged header whose charset isn't admitted is, with the first
/// input's name. Refused only where an allocation failed.
pub fn plan_msgcat(
    alloc: Global,
    inputs: &[(&str, &[u8])],
    options: &MergeOptions,
) -> Result<Run, ToolFault>
    requires { All (λ file. Lacks 0 file.name) (named_files inputs.now) }
    ensures run { IfOk result (λ run. IsMsgcatRun (named_files inputs.now) options.now (run_view run)) }
    ensures memory { OnErr result (result ≡ Err ToolFault.OutOfMemory) }
{
    let read = read_inputs(alloc, inputs);
    Ok(run_of_read(alloc, read, Vec::new(alloc), options)?)
}

/// What `msgcat` comes to where the input after these can't be read: the refusal of these, or,
/// where they are read, that input's fault. `OutOfMemory` may come in place of any result.
pub fn plan_msgcat_before<'a>(
    alloc: Global,
    inputs: &[(&str, &[u8])],
    fault: ProgramFault<'a>,
) -> Result<Run, ProgramFault<'a>>
    requires { All (λ file. Lacks 0 file.name) (named_files inputs.now) }
    ensures refused { IfOk result (λ run. IsUnread (named_files inputs.now) (run_view run)) }
    ensures fault { IfErr result (λ reported. (reported ≡ ProgramFault.OutOfMemory)
        ⊎ ((reported ≡ fault.entry) × ((read : List Named) × AreReadAs (named_files inputs.now) read))) }

    // Where there is none before it, that fault is reported.
    ensures first { named_files inputs.now ≡ [] → result ≡ Err fault.entry }
{
    if inputs.is_empty() {
        return Err(fault);
    }
    match read_inputs(alloc, inputs) {
        Ok(_) => Err(fault),
        Err(unread) => Ok(refused_text(alloc, "msgcat", unread.name, unread.error)?),
    }
}

/// The place and the name of the first file whose name holds NUL, so that it can't be opened.
pub(crate) fn first_with_nul<'a>(files: &[(&'a str, &[u8])]) -> Option<(usize, &'a str)>
    ensures { MatchOption result (All (λ file. Lacks 0 file.name) (named_files files.now))
        (λ found. IsFirstWithNul (named_files files.now) found.0 found.1.now) }
{
    for (place, file) in files.iter().enumerate() {
        if memchr(0, file.0.as_bytes()).is_some() {
            return Some((place, file.0));
        }
    }
    None
}
