//! msgfmt as a whole: the inputs of its command line are read, also where one can't be, and their
//! run is planned and written.
ghost use Rattle.std.specs.Prelude.{◌≡◌, ◌≢◌, ◌⊎◌, ◌^◌, ◌<◌, [], None, Some, Err, IfOk, IfErr, IfSome, OnOk, map};
ghost use Rattle.msgfmt.specs.Prelude.{AreWrong, AsksFirst, IsMsgfmtRun, IsRefused, NoneRefused, RunsMsgfmt, asking, named_inputs, run_view};

use crate::options::MsgfmtOptions;
use crate::plan::{gather, gathered_run};
use runs::{ByteOut, InputSource, Inputs, OutputFiles, OutputSystem, ProgramFault, Run};
use std::alloc::Global;

/// What `msgfmt` comes to with the inputs that a command line names, each with its name, and the
/// fault of the one after them that can't be read: the plan of all of them, or, where one can't be
/// read, the refusal of those before it, or else that input's fault. The file is written over the
/// bytes of the inputs. The check of `--profile-check` is of all inputs together, so it isn't made
/// of only some of them. The command line names one at least, and fewer than 4,294,967,296; else,
/// and only then, it is `WrongArguments`. `OutOfMemory` may come in place of any result.
pub fn plan_msgfmt_of<'a>(
    alloc: Global,
    inputs: Inputs<'a>,
    options: &MsgfmtOptions,
) -> Result<Run, ProgramFault<'a>>
    ensures whole { inputs.entry.fault ≡ None
        → IfOk result (λ run. IsMsgfmtRun (named_inputs inputs.entry) options.now (run_view run)) }
    ensures refused { inputs.entry.fault ≢ None
        → IfOk result (λ run. IsRefused (named_inputs inputs.entry) options.now (run_view run)) }
    ensures right { OnOk result (AreWrong (named_inputs inputs.entry) inputs.entry.fault → ⊥) }
    ensures fault { IfErr result (λ reported. (reported ≡ ProgramFault.OutOfMemory)
        ⊎ ((reported ≡ ProgramFault.WrongArguments) × AreWrong (named_inputs inputs.entry) inputs.entry.fault)
        ⊎ ((inputs.entry.fault ≡ Some reported) × NoneRefused (named_inputs inputs.entry) options.now)) }

    // An input that can't be read is told where there is none before it.
    ensures first { named_inputs inputs.entry ≡ []
        → IfSome inputs.entry.fault (λ fault. result ≡ Err fault) }
{
    let fault = inputs.fault;
    if inputs.texts.len() > u32::MAX as usize {
        return Err(ProgramFault::WrongArguments);
    }
    if inputs.texts.is_empty() {
        return Err(fault.unwrap_or(ProgramFault::WrongArguments));
    }
    let is_whole = fault.is_none();
    let options = MsgfmtOptions {
        profile_check: options.profile_check && is_whole,
        ..*options
    };
    let borrowed = inputs.borrowed(alloc)?;
    let gathered = gather(alloc, &borrowed, options.use_fuzzy)?;
    drop(borrowed);
    let run = gathered_run(alloc, gathered, inputs.bytes, &options)?;
    let Some(fault) = fault else {
        return Ok(run);
    };
    if run.status == 0 { Err(fault) } else { Ok(run) }
}

/// Runs `msgfmt`: reads the inputs of its arguments in their order, plans as `plan_msgfmt_of` does,
/// and writes the run. Returns the run's status. Nothing is written where what was read has no run,
/// and where an allocation failed before the run was planned.
pub fn run<'a, S: InputSource, F: OutputFiles, O: ByteOut, E: ByteOut>(
    alloc: Global,
    source: &mut S,
    system: &mut OutputSystem<F, O, E>,
    arguments: &[&'a str],
    output: &'a str,
    options: &MsgfmtOptions,
) -> Result<u8, ProgramFault<'a>>
    requires out { system.old.out.failures < 2 ^ 63 }
    requires err { system.old.err.failures < 2 ^ 63 }

    // Each input is asked for in its turn, and standard input once at most.
    ensures asked { AsksFirst (S.asked source.old) (S.asked source.new)
        (map (λ argument. argument.now) arguments.now) }
    ensures run { RunsMsgfmt (asking (S.file source.old) (S.standard source.old) (S.asked source.old) (S.asked source.new) (S.refused source.new))
        options.now (map (λ argument. argument.now) arguments.now) output.now system.old system.new result }
{
    let inputs = Inputs::read(alloc, source, arguments)?;
    let run = plan_msgfmt_of(alloc, inputs, options)?;
    system.write(alloc, &run, output)
}
