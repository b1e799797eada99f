//! gettext and ngettext as a whole: catalogues are looked for, and their run is written.
ghost use Rattle.std.specs.Prelude.{◌^◌, ◌<◌};
ghost use Rattle.gettext.specs.Prelude.{searching, command_view, RunsLookUp};

use crate::arguments::LookUpCommand;
use crate::catalogues::{borrowed_catalogues, find_catalogues};
use crate::environment::VariableSource;
use crate::plan::plan_look_up;
use runs::{ByteOut, InputSource, OutputFiles, OutputSystem, ProgramFault, STANDARD, ToolFault};
use std::alloc::Global;

/// Runs `gettext` or `ngettext`: reads the catalogues of the text domain that the command gives,
/// plans as `plan_look_up` does, and writes the run. Returns the run's status. Nothing is written
/// where an allocation failed before the run was planned.
pub fn run_look_up<S: InputSource + VariableSource, F: OutputFiles, O: ByteOut, E: ByteOut>(
    alloc: Global,
    source: &mut S,
    system: &mut OutputSystem<F, O, E>,
    command: &LookUpCommand<'_>,
) -> Result<u8, ProgramFault<'static>>
    requires out { system.old.out.failures < 2 ^ 63 }
    requires err { system.old.err.failures < 2 ^ 63 }
    ensures { RunsLookUp (searching (S.variable source.old) (S.file source.old) (S.asked source.old) (S.asked source.new))
        (command_view command.now) system.old system.new result }
{
    let planned = {
        let found = find_catalogues(alloc, source, command.argument, command.option)?;
        let borrowed = borrowed_catalogues(alloc, found.as_slice())?;
        plan_look_up(alloc, borrowed.as_slice(), &command.look_up)
    };
    let run = match planned {
        Ok(run) => run,
        Err(ToolFault::OutOfMemory) => return Err(ProgramFault::OutOfMemory),
        Err(_) => unreachable!(),
    };
    system.write(alloc, &run, STANDARD)
}
