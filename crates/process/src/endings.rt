//! What the program writes itself, and how it ends then.
ghost use Rattle.std.specs.Prelude.{◌≡◌, ◌<◌, ◌^◌, IfOk, OnErr};
ghost use Rattle.process.specs.Prelude.{GivesHelp, Puts, Reports, writer};
ghost use Rattle.command_line.specs.Prelude.{reworded};

use command_line::reworded;
use runs::{ByteOut, Ending, ProgramFault, Tool, put_all, report_fault};
use std::alloc::{AllocError, Global};

/// Reports a fault after the name of its tool, where one is known. Where that fails too, the status
/// alone reports it.
pub fn report<E: ByteOut>(err: &mut E, tool: Option<Tool>, fault: ProgramFault<'_>) -> Ending
    requires { E.failures err.old < 2 ^ 63 }
    ensures ending { result ≡ Ending.Refused }
    ensures line { Reports tool fault.entry (writer (E.contents err.old) (E.failures err.old))
        (writer (E.contents err.new) (E.failures err.new)) }
{
    let name = match tool {
        Some(tool) => Some(tool.name()),
        None => None,
    };
    let _ = report_fault(err, name, fault);
    Ending::Refused
}

/// Writes the help that was asked for.
pub fn give_help<O: ByteOut>(out: &mut O, text: &str) -> Ending
    requires { O.failures out.old < 2 ^ 63 }
    ensures { GivesHelp text.now (writer (O.contents out.old) (O.failures out.old))
        (writer (O.contents out.new) (O.failures out.new)) result }
{
    Ending::Helped(put_all(out, text.as_bytes()).is_ok())
}

/// Writes what is wrong with a command line, by clap's text of it. Where that can't be written, the
/// status alone says so.
pub fn refuse<E: ByteOut>(
    alloc: Global,
    err: &mut E,
    tool: Option<Tool>,
    text: &str,
) -> Result<Ending, AllocError>
    requires { E.failures err.old < 2 ^ 63 }
    ensures ending { IfOk result (λ ending. ending ≡ Ending.Refused) }
    ensures text { IfOk result (λ _. Puts (reworded tool text.now)
        (writer (E.contents err.old) (E.failures err.old)) (writer (E.contents err.new) (E.failures err.new))) }
    ensures unwritten { OnErr result (err.new ≡ err.old) }
{
    let text = reworded(alloc, tool, text)?;
    let _ = put_all(err, text.as_bytes());
    Ok(Ending::Refused)
}
