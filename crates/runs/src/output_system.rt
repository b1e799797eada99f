//! A system to which runs are written, as one value: to the output file or to standard output, and
//! then to standard error.
ghost use Rattle.std.specs.Prelude.{◌^◌, ◌<◌};
ghost use Rattle.runs.specs.Prelude.{run_view, Writes};

use crate::device::{ByteOut, put_all};
use crate::output_files::{OutputFault, OutputFiles};
use crate::output_writing::write_file;
use crate::program_fault::ProgramFault;
use crate::run::{Run, deliver};
use std::alloc::Global;
use std::marker::Model;

/// How many links are followed at most from the argument for an output file.
const LINK_LIMIT: u32 = 40;

/// A system to which runs are written: its files, standard output and standard error.
#[derive(Drop)]
pub struct OutputSystem<F: OutputFiles, O: ByteOut, E: ByteOut> {
    /// The files, as outputs are made.
    pub files: F,
    /// Standard output.
    pub out: O,
    /// Standard error.
    pub err: E,
}

impl<F: OutputFiles, O: ByteOut, E: ByteOut> Model for OutputSystem<F, O, E> {
    ghost use Rattle.runs.specs.OutputSystem.{SystemView, system, writer};

    ghost Value = { SystemView };

    ghost view = { λ s. system (F.log s.files) (writer (O.contents s.out) (O.failures s.out))
        (writer (E.contents s.err) (E.failures s.err)) };
}

impl<F: OutputFiles, O: ByteOut, E: ByteOut> OutputSystem<F, O, E> {
    /// Writes a run: all of its output to its output file, by the argument for it, or to standard
    /// output where there is none, and then all of its messages to standard error. The output file
    /// is there whole, or as it was. Returns the run's status.
    pub fn write<'a>(
        &mut self,
        alloc: Global,
        run: &Run,
        argument: &'a str,
    ) -> Result<u8, ProgramFault<'a>>
        requires out { self.old.out.failures < 2 ^ 63 }
        requires err { self.old.err.failures < 2 ^ 63 }
        ensures { Writes (run_view run.now) argument.now self.old self.new result }
    {
        let Some(name) = run.output_file(argument) else {
            return match deliver(run, &mut self.out, &mut self.err) {
                Ok(()) => Ok(run.status),
                Err(_) => Err(ProgramFault::WriteFault),
            };
        };
        match write_file(alloc, &mut self.files, name, &run.output, LINK_LIMIT) {
            Ok(()) => match put_all(&mut self.err, &run.messages) {
                Ok(()) => Ok(run.status),
                Err(_) => Err(ProgramFault::WriteFault),
            },
            Err(OutputFault::CannotCreate) => Err(ProgramFault::CannotCreate(argument)),
            Err(OutputFault::WriteFault) => Err(ProgramFault::WriteFault),
            Err(OutputFault::OutOfMemory) => Err(ProgramFault::OutOfMemory),
        }
    }
}
