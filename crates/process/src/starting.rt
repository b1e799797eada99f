//! The program over a system.
ghost use Rattle.process.specs.Prelude.{AreEntries, ReadsFile, ReadsInput, Starts, answers_of};
ghost use Rattle.runs.specs.Inputs.{gives};
ghost use Rattle.std.specs.Prelude.{codes};

use crate::endings::report;
use crate::files::SystemFiles;
use crate::program::run;
use crate::source::Source;
use crate::streams::replace_closed;
use crate::system_calls::SystemCalls;
use runs::{Counted, Ending, OutputSystem};
use std::alloc::Global;
use std::str::FromStr;

/// Runs the program over a system.
pub fn start<S: SystemCalls + Copy>(alloc: Global, system: S) -> Ending
    ensures { Starts (S.calls system) ⟦<u32 as FromStr>⟧.from_str_gives (S.argument system)
        (answers_of (λ name reading. ReadsFile (S.opens system name) reading)
        (λ reading. ReadsInput (S.input system) reading) (λ name value. S.value system name value)
        (λ entries. AreEntries (S.entry system)
        (λ text. ReadsFile (S.opens system (codes "/proc/self/environ")) (gives text)) entries)) result }
{
    let mut calls = system;
    if let Err(fault) = replace_closed(&mut calls) {
        return report(&mut Counted::new(calls.errors()), None, fault);
    }
    let mut errors = Counted::new(calls.errors());
    let mut reader = Counted::new(calls.input());
    let mut source = Source(&system);
    let mut output = OutputSystem {
        files: SystemFiles::new(alloc, system),
        out: Counted::new(calls.output()),
        err: Counted::new(calls.errors()),
    };
    run(
        alloc,
        &system,
        &mut source,
        &mut reader,
        &mut output,
        &mut errors,
    )
}
