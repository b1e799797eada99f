//! What a run of a tool comes to, how it is delivered, and how the program ends.
ghost use Rattle.std.specs.Prelude.{◌≡◌, ◌+◌, ◌^◌, ◌<◌, Err, OnOk, OnErr};
ghost use Rattle.std.specs.Io.KnownBytes.{Appends};
ghost use Rattle.std.specs.Option.{option_copied};
ghost use Rattle.runs.specs.Prelude.{exit_status, run_view, output_file, output_run, shown_name, DeliversPrefix};

use crate::device::{ByteOut, put_all};
use crate::tool_fault::ToolFault;
use std::alloc::Global;

/// The argument for standard input among the inputs, and for standard output.
pub const STANDARD: &str = "-";

/// The name of standard input in fault lines.
pub const STDIN_NAME: &str = "<stdin>";

/// The name of an input in fault lines, by the argument for it.
pub fn shown_name(argument: &str) -> &str
    ensures { result.now ≡ shown_name argument.now }
{
    if argument == STANDARD {
        STDIN_NAME
    } else {
        argument
    }
}

/// What a run of a tool comes to: the bytes of its output and of its messages on standard error,
/// whether an output file is to be made, and the exit status.
#[derive(Debug, Drop)]
pub struct Run {
    /// What the tool writes to its output file or to standard output.
    pub output: Vec<u8>,
    /// Whether there is something to write, so that an output file is made.
    pub create: bool,
    /// What the tool reports on standard error, whole lines.
    pub messages: Vec<u8>,
    /// The exit status: 0, or 1 for any fault.
    pub status: u8,
}

impl Run {
    /// The file that is made for the output, by the argument for it, where there is something to
    /// write and the argument isn't that for standard output.
    pub fn output_file<'a>(&self, argument: &'a str) -> Option<&'a str>
        ensures { option_copied result ≡ output_file (run_view self.now) argument.now }
    {
        (self.create && argument != STANDARD).then_some(argument)
    }
}

/// The run of a tool that writes this output, to a file where it has a byte, and reports nothing.
pub fn written(alloc: Global, output: Vec<u8>) -> Run
    ensures { run_view result ≡ output_run output.items }
{
    Run {
        create: output.len() > 0,
        output,
        messages: Vec::new(alloc),
        status: 0,
    }
}

/// Writes all of a run's output, then all of its messages. Returns `WriteFault` where a call of a
/// writer failed or took no byte; then a prefix of the output has gone out and no message, or all
/// of the output and a prefix of the messages.
pub fn deliver<O: ByteOut, E: ByteOut>(run: &Run, out: &mut O, err: &mut E) -> Result<(), ToolFault>
    requires out { O.failures out.old < 2 ^ 63 }
    requires err { E.failures err.old < 2 ^ 63 }
    ensures output { OnOk result (Appends (O.contents out.old) (O.contents out.new) (run_view run.now).output) }
    ensures messages { OnOk result (Appends (E.contents err.old) (E.contents err.new) (run_view run.now).messages) }
    ensures prefix { OnErr result (DeliversPrefix (O.contents out.old) (O.contents out.new) (E.contents err.old)
        (E.contents err.new) (run_view run.now)) }
    ensures fault { OnErr result (result ≡ Err ToolFault.WriteFault) }
    ensures out_failures { OnOk result (O.failures out.new ≡ O.failures out.old) }
    ensures err_failures { OnOk result (E.failures err.new ≡ E.failures err.old) }
    ensures cause { OnErr result (O.failures out.new + E.failures err.new
        ≡ O.failures out.old + E.failures err.old + 1) }
{
    put_all(out, &run.output)?;
    put_all(err, &run.messages)
}

/// What the program has come to.
#[derive(Clone, Copy, Debug, PartialEq, Eq)]
pub enum Ending {
    /// A tool has run, with this status.
    Ran(u8),
    /// Help was asked for, and whether all of it was printed.
    Helped(bool),
    /// There was a fault: of the command line, or of the tool, which has no status then.
    Refused,
}

impl Ending {
    /// The exit status: 0 after a run whose status is 0 and after help that was printed, else 1.
    pub fn exit_status(self) -> u8
        ensures { result ≡ exit_status self }
    {
        match self {
            Ending::Ran(0) | Ending::Helped(true) => 0,
            Ending::Ran(_) | Ending::Helped(false) | Ending::Refused => 1,
        }
    }
}
