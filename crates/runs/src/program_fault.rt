//! Faults of the program itself, and the lines that report them.
ghost use Rattle.std.specs.Prelude.{◌≡◌, ◌+◌, ◌^◌, ◌<◌, ◌≤◌, ◌++◌, length, IfOk, OnOk, OnErr, Err};
ghost use Rattle.std.specs.Io.KnownBytes.{Appends};
ghost use Rattle.std.specs.Option.{option_copied};
ghost use Rattle.runs.specs.Prelude.{GivesFirst, program_line, program_text, stdin_text};
ghost use Rattle.runs.specs.Internal.ProgramFault.{joined};
ghost use Rattle.runs.specs.declared.program_fault.ProgramFault.TheVariants.{OutOfMemory};

use crate::device::{ByteOut, put_all};
use crate::run::STDIN_NAME;
use crate::tool_fault::ToolFault;
use arrayvec::{ArrayVec, CapacityError};
use std::alloc::{AllocError, AllocFailed};
use thiserror::Error;

/// Why a tool gave no answer of its own.
#[derive(Clone, Copy, Debug, Error)]
pub enum ProgramFault<'a> {
    /// The arguments aren't UTF-8, so that no tool is known.
    #[error("arguments are not UTF-8")]
    NotText,
    /// The arguments after the options fit no usage of the tool.
    #[error("wrong number of arguments")]
    WrongArguments,
    /// The input file of this name can't be opened.
    #[error("cannot open")]
    CannotOpen(&'a str),
    /// The output file of this name can't be made.
    #[error("cannot create")]
    CannotCreate(&'a str),
    /// The input of this name was opened, and reading it failed.
    #[error("read fault")]
    ReadFault(&'a str),
    /// The output, or standard error, took no more.
    #[error("write fault")]
    WriteFault,
    /// An allocation failed.
    #[error("out of memory")]
    OutOfMemory,
}

// A tool that reads by itself reads standard input.
impl From<ToolFault> for ProgramFault<'_> {
    ghost from_gives = { λ fault reported. program_text reported ≡ stdin_text fault };

    fn from(fault: ToolFault) -> Self {
        match fault {
            ToolFault::ReadFault => ProgramFault::ReadFault(STDIN_NAME),
            ToolFault::WriteFault => ProgramFault::WriteFault,
            ToolFault::OutOfMemory => ProgramFault::OutOfMemory,
        }
    }
}

impl From<AllocError> for ProgramFault<'_> {
    ghost from_gives = { λ _ reported. reported ≡ OutOfMemory };

    fn from(_error: AllocError) -> Self {
        ProgramFault::OutOfMemory
    }
}

impl<T: Drop> From<AllocFailed<T>> for ProgramFault<'_> {
    ghost from_gives = { λ _ reported. reported ≡ OutOfMemory };

    fn from(_failed: AllocFailed<T>) -> Self {
        ProgramFault::OutOfMemory
    }
}

/// A fault line that is written at once: 4,096 bytes at most, as many as a pipe takes without a
/// part of another process's among them.
type Line = ArrayVec<u8, 4096>;

/// Writes the line of a fault after `pokit TOOL: `, or after `pokit: ` where no tool is known, at
/// once, or part by part where it has more than 4,096 bytes. Nothing is allocated. Returns
/// `WriteFault` where a call of the writer failed or took no byte.
pub fn report_fault<E: ByteOut>(
    err: &mut E,
    tool: Option<&str>,
    fault: ProgramFault<'_>,
) -> Result<(), ToolFault>
    requires { E.failures err.old < 2 ^ 63 }
    ensures line { OnOk result (Appends (E.contents err.old) (E.contents err.new)
        (program_line (option_copied tool.entry) fault.entry)) }
    ensures fault { OnErr result (result ≡ Err ToolFault.WriteFault) }
    ensures no_failure { OnOk result (E.failures err.new ≡ E.failures err.old) }
    ensures cause { OnErr result (E.failures err.new ≡ E.failures err.old + 1) }

    // A line that isn't longer is given whole to the first call.
    ensures at_once { length (program_line (option_copied tool.entry) fault.entry) ≤ 4096
        → GivesFirst (E.given err.old) (E.given err.new) (program_line (option_copied tool.entry) fault.entry) }
{
    let parts = parts_of(tool, fault);
    match line_of(&parts) {
        Ok(line) => put_all(err, &line),
        Err(_) => put_parts(err, &parts),
    }
}

/// The line of these parts, where it isn't longer than a `Line`.
fn line_of(parts: &[&str]) -> Result<Line, CapacityError>
    ensures line { IfOk result (λ line. line.items ≡ joined parts.now) }
    ensures long { OnErr result (4096 < length (joined parts.now)) }
{
    let mut line = Line::new();
    for part in parts {
        line.try_extend_from_slice(part.as_bytes())?;
    }
    Ok(line)
}

/// Writes a line part by part.
fn put_parts<E: ByteOut>(err: &mut E, parts: &[&str]) -> Result<(), ToolFault>
    requires { E.failures err.old < 2 ^ 63 }
    ensures line { OnOk result (Appends (E.contents err.old) (E.contents err.new) (joined parts.now)) }
    ensures fault { OnErr result (result ≡ Err ToolFault.WriteFault) }
    ensures no_failure { OnOk result (E.failures err.new ≡ E.failures err.old) }
    ensures cause { OnErr result (E.failures err.new ≡ E.failures err.old + 1) }
{
    for part in parts {
        put_all(err, part.as_bytes())?;
    }
    Ok(())
}

/// The parts of the line of a fault.
fn parts_of<'a>(tool: Option<&'a str>, fault: ProgramFault<'a>) -> [&'a str; 6]
    ensures { joined result ≡ program_line (option_copied tool.entry) fault.entry }
{
    let (program, tool) = match tool {
        None => ("pokit", ""),
        Some(tool) => ("pokit ", tool),
    };
    let (file, text) = text_of(fault);
    [program, tool, ": ", file, text, "\n"]
}

/// The name of a file, where a fault has one, and what is wrong.
fn text_of<'a>(fault: ProgramFault<'a>) -> (&'a str, &'a str)
    ensures { result.0.now ++ result.1.now ≡ program_text fault.entry }
{
    match fault {
        ProgramFault::NotText => ("", "arguments are not UTF-8"),
        ProgramFault::WrongArguments => ("", "wrong number of arguments"),
        ProgramFault::CannotOpen(file) => (file, ": cannot open"),
        ProgramFault::CannotCreate(file) => (file, ": cannot create"),
        ProgramFault::ReadFault(file) => (file, ": read fault"),
        ProgramFault::WriteFault => ("", "write fault"),
        ProgramFault::OutOfMemory => ("", "out of memory"),
    }
}
