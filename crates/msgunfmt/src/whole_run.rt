//! msgunfmt as a whole: its input is read, and its run is written.
ghost use Rattle.std.specs.Prelude.{◌^◌, ◌<◌, false};
ghost use Rattle.msgunfmt.specs.Prelude.{Asks, IsMsgunfmtRun, RunsInput, asked_for, asking, is_standard};

use crate::plan::plan_msgunfmt;
use runs::{
    ByteOut, InputSource, OutputFiles, OutputSystem, ProgramFault, ToolFault, read_one, shown_name,
};
use std::alloc::Global;

/// Runs `msgunfmt`: reads the input of its argument, plans as `plan_msgunfmt` does, and writes the
/// run. Returns the run's status. Nothing is written where the input can't be read, and where an
/// allocation failed before the run was planned.
pub fn run<'a, S: InputSource, F: OutputFiles, O: ByteOut, E: ByteOut>(
    alloc: Global,
    source: &mut S,
    system: &mut OutputSystem<F, O, E>,
    argument: &'a str,
    output: &'a str,
) -> Result<u8, ProgramFault<'a>>
    requires out { system.old.out.failures < 2 ^ 63 }
    requires err { system.old.err.failures < 2 ^ 63 }

    // The input is asked for once, and nothing else.
    ensures asked { Asks (S.asked source.old) (S.asked source.new)
        (asked_for argument.now (is_standard argument.now) false) }
    ensures run { RunsInput (asking (S.file source.old) (S.standard source.old) (S.asked source.old) (S.asked source.new) (S.refused source.new))
        IsMsgunfmtRun argument.now output.now system.old system.new result }
{
    let bytes = read_one(alloc, source, argument)?;
    let run = match plan_msgunfmt(alloc, &bytes, shown_name(argument)) {
        Ok(run) => run,
        Err(ToolFault::OutOfMemory) => return Err(ProgramFault::OutOfMemory),
        Err(_) => unreachable!(),
    };
    system.write(alloc, &run, output)
}
