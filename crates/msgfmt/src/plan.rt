//! What msgfmt writes and reports: the MO file of PO texts.
ghost use Rattle.std.specs.Prelude.{◌≡◌, ◌^◌, ◌<◌, List, length, IfOk, OnErr, Err};
ghost use Rattle.msgfmt.specs.Prelude.{NamedFile, named_files, run_view};
ghost use Rattle.msgfmt.specs.Internal.Plan.{IsGathered};
ghost use Rattle.msgfmt.specs.Msgfmt as Spec;

use crate::fault_lines::{failed_check_run, refused_run};
use crate::options::MsgfmtOptions;
use crate::profile::check_collected;
use po_compile::{Collected, Compiled, Options, collect_all, compile_collected};
use po_entry::JoinError;
use po_syntax::PoFault;
use runs::{Run, ToolFault};
use std::alloc::{AllocError, Global};

/// The names of inputs, and what is collected of their texts, or why one isn't read. The run of the
/// inputs needs no more of them.
#[derive(Drop)]
pub(crate) struct Gathered<'a> {
    names: Vec<&'a str>,
    collected: Result<Vec<Collected>, JoinError>,
}

/// Gathers what the run of inputs needs of them.
pub(crate) fn gather<'a>(
    alloc: Global,
    inputs: &[(&'a str, &[u8])],
    use_fuzzy: bool,
) -> Result<Gathered<'a>, AllocError>
    requires { length inputs.now < 2 ^ 32 }
    ensures { IfOk result (IsGathered use_fuzzy (named_files inputs.now)) }
{
    let mut names = Vec::with_capacity(alloc, inputs.len())?;
    let mut texts = Vec::with_capacity(alloc, inputs.len())?;
    for (name, text) in inputs {
        names.push(*name)?;
        texts.push(*text)?;
    }
    let collected = collect_all(alloc, &texts, use_fuzzy);
    Ok(Gathered { names, collected })
}

/// The run of inputs that are compiled.
fn compiled_run(
    alloc: Global,
    options: &MsgfmtOptions,
    compiled: Compiled,
) -> Result<Run, AllocError>
    ensures { IfOk result (λ run. run_view run ≡ Spec.compiled_run options.now compiled) }
{
    let messages = if options.statistics {
        match compiled.stats.line(alloc) {
            Ok(line) => line,
            Err(error) => match error.kind {
                PoFault::OutOfMemory => return Err(AllocError),
                _ => unreachable!(),
            },
        }
    } else {
        Vec::new(alloc)
    };
    let create = compiled.n > 0;
    let output = if create {
        compiled.bytes
    } else {
        Vec::new(alloc)
    };
    Ok(Run {
        output,
        create,
        messages,
        status: 0,
    })
}

/// The run of inputs of which this is gathered. The compiled file is written over what `room`
/// holds.
///
/// The check comes first, so that what it takes of the memory is free again; its fault is reported
/// only where the inputs are compiled.
pub(crate) fn gathered_run(
    alloc: Global,
    gathered: Gathered<'_>,
    room: Vec<u8>,
    options: &MsgfmtOptions,
) -> Result<Run, AllocError>
    requires { (inputs : List NamedFile) × IsGathered options.now.use_fuzzy inputs gathered }
    ensures { IfOk result (λ run. (inputs : List NamedFile) → IsGathered options.now.use_fuzzy inputs gathered.entry
        → Spec.IsMsgfmtRun inputs options.now (run_view run)) }
{
    let Gathered { names, collected } = gathered;
    let collected = match collected {
        Ok(collected) => collected,
        Err(error) => return refused_run(alloc, &names, error),
    };
    let checked = if options.profile_check {
        check_collected(alloc, &collected)
    } else {
        Ok(())
    };
    let compile_options = Options {
        use_fuzzy: options.use_fuzzy,
        order: options.order,
    };
    let compiled = match compile_collected(alloc, &collected, room, compile_options) {
        Ok(compiled) => compiled,
        Err(error) => return refused_run(alloc, &names, error),
    };
    match checked {
        Ok(()) => compiled_run(alloc, options, compiled),
        Err((input, fault)) => failed_check_run(alloc, &names, input, fault),
    }
}

/// What `msgfmt` writes and reports of its inputs, each with its name: the compiled file, where it
/// has a message, and the statistics, where they are asked for. Why inputs aren't compiled is
/// reported by one line, with status 1; else the first fault of the check is, where it is asked
/// for. Refused only where an allocation failed.
pub fn plan_msgfmt(
    alloc: Global,
    inputs: &[(&str, &[u8])],
    options: &MsgfmtOptions,
) -> Result<Run, ToolFault>
    requires some { 0 < length inputs.now }
    requires few { length inputs.now < 2 ^ 32 }
    ensures run { IfOk result (λ run. Spec.IsMsgfmtRun (named_files inputs.now) options.now (run_view run)) }
    ensures memory { OnErr result (result ≡ Err ToolFault.OutOfMemory) }
{
    let gathered = gather(alloc, inputs, options.use_fuzzy)?;
    Ok(gathered_run(alloc, gathered, Vec::new(alloc), options)?)
}
