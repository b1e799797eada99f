//! A tool over a known system.
ghost use Rattle.known_runs.specs.Prelude.{RunsInMemory};

use crate::words::Words;
use known_system::{KnownFiles, KnownSource, Told};
use runs::{Counted, OutputSystem, ProgramFault, Tool};
use std::alloc::Global;

/// What a tool reached: its files, and what it wrote on standard output and standard error.
#[derive(Drop)]
pub struct Reached<'f> {
    /// The files.
    pub files: KnownFiles<'f>,
    /// Standard output.
    pub out: Told,
    /// Standard error.
    pub err: Told,
}

/// What a command came to: its status, or why it has none; the bytes of its output file, where one
/// is there; and what it wrote on standard output and standard error.
#[derive(Drop)]
pub struct Ended {
    /// The status, or why there is none.
    pub result: Result<u8, ProgramFault<'static>>,
    /// The output file.
    pub file: Option<Vec<u8>>,
    /// Standard output.
    pub out: Told,
    /// Standard error.
    pub err: Told,
}

/// Runs a tool by these words over a known system, and returns its status and what it reached.
pub fn run_in_memory<'a, 'f>(
    alloc: Global,
    tool: Tool,
    source: &mut KnownSource<'_>,
    files: KnownFiles<'f>,
    words: &'a Words<'_>,
) -> (Result<u8, ProgramFault<'a>>, Reached<'f>)
    ensures { RunsInMemory tool words.now source.old source.new files.entry result.1 result.0 }
{
    let mut reader = Counted::new(source.standard);
    let mut system = OutputSystem {
        files,
        out: Told::new(alloc),
        err: Told::new(alloc),
    };
    let result = po_tools::run(alloc, tool, source, &mut reader, &mut system, words);
    let OutputSystem { files, out, err } = system;
    (result, Reached { files, out, err })
}
