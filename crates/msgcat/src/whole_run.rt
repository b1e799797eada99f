//! msgcat as a whole: its inputs are read, and their run is written.
ghost use Rattle.std.specs.Prelude.{◌≡◌, ◌≢◌, ◌⊎◌, ◌^◌, ◌<◌, All, Err, IfErr, IfOk, IfSome, List, None, Some, [], map};
ghost use Rattle.msgcat.specs.Prelude.{AreReadAs, AsksFirst, HasNulName, IsMsgcatRun, IsUnread, IsUnreadBeforeNul, Lacks, Named, RunsMsgcat, asking, named_inputs, program_text, run_view};

use crate::input::MergeOptions;
use crate::inputs::read_inputs;
use crate::plan::{first_with_nul, plan_msgcat_before, run_of_read};
use runs::{ByteOut, InputSource, Inputs, OutputFiles, OutputSystem, ProgramFault, Run};
use std::alloc::Global;

/// What `msgcat` comes to with the inputs that a command line names, each with its name, and the
/// fault of the one after them that can't be read: the plan of all of them, written over their
/// bytes, or, where one can't be read, what `plan_msgcat_before` says of those before it. So it is
/// with a file whose name holds NUL, since it can't be opened. `OutOfMemory` may come in place of
/// any result.
pub fn plan_msgcat_of<'a>(
    alloc: Global,
    inputs: Inputs<'a>,
    options: &MergeOptions,
) -> Result<Run, ProgramFault<'a>>
    ensures whole { inputs.entry.fault ≡ None
        → IfOk result (λ run. IsMsgcatRun (named_inputs inputs.entry) options.now (run_view run)) }
    ensures refused { inputs.entry.fault ≢ None → IfOk result (λ run. IsUnread (named_inputs inputs.entry) (run_view run)) }
    ensures fault { IfErr result (λ reported. (reported ≡ ProgramFault.OutOfMemory)
        ⊎ (HasNulName (named_inputs inputs.entry) (program_text reported))
        ⊎ ((inputs.entry.fault ≡ Some reported) × All (λ file. Lacks 0 file.name) (named_inputs inputs.entry)
        × ((read : List Named) × AreReadAs (named_inputs inputs.entry) read))) }
    ensures names { IfOk result (λ run. IsUnreadBeforeNul (named_inputs inputs.entry) (run_view run)) }

    // An input that can't be read is told where there is none before it.
    ensures first { named_inputs inputs.entry ≡ [] → IfSome inputs.entry.fault (λ fault. result ≡ Err fault) }
{
    let fault = inputs.fault;
    let texts = inputs.borrowed(alloc)?;
    if let Some((place, name)) = first_with_nul(&texts) {
        return plan_msgcat_before(alloc, &texts[..place], ProgramFault::CannotOpen(name));
    }
    if let Some(fault) = fault {
        return plan_msgcat_before(alloc, &texts, fault);
    }
    let read = read_inputs(alloc, &texts);
    drop(texts);
    let run = run_of_read(alloc, read, inputs.bytes, options)?;
    Ok(run)
}

/// Runs `msgcat`: reads the inputs of its arguments in their order, plans as `plan_msgcat_of` does,
/// and writes the run. Returns the run's status. Nothing is written where what was read has no run,
/// and where an allocation failed before the run was planned.
pub fn run<'a, S: InputSource, F: OutputFiles, O: ByteOut, E: ByteOut>(
    alloc: Global,
    source: &mut S,
    system: &mut OutputSystem<F, O, E>,
    arguments: &[&'a str],
    output: &'a str,
    options: &MergeOptions,
) -> Result<u8, ProgramFault<'a>>
    requires out { system.old.out.failures < 2 ^ 63 }
    requires err { system.old.err.failures < 2 ^ 63 }

    // Each input is asked for in its turn, and standard input once at most.
    ensures asked { AsksFirst (S.asked source.old) (S.asked source.new)
        (map (λ argument. argument.now) arguments.now) }
    ensures run { RunsMsgcat (asking (S.file source.old) (S.standard source.old) (S.asked source.old) (S.asked source.new) (S.refused source.new))
        options.now (map (λ argument. argument.now) arguments.now) output.now system.old system.new result }
{
    let inputs = Inputs::read(alloc, source, arguments)?;
    let run = plan_msgcat_of(alloc, inputs, options)?;
    system.write(alloc, &run, output)
}
