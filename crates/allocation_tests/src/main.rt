//! Makes one call that allocates, in a row of values worked out by hand, so that a script can let
//! each of its allocations fail. The status reports what came of it:
//!
//! - 0: the call answered, and rightly;
//! - 3: it answered out of memory, and left its arguments as they were;
//! - 4: an allocation failed before the call;
//! - 1: anything else; 2: there is no such row.
//!
//! The modules in reading order: `outcomes`, `texts`, `shell`, `tools`, `commands`.

#![tactic(auto)]

mod commands;
mod outcomes;
mod shell;
mod texts;
mod tools;

use outcomes::Outcome;
use std::alloc::Global;
use std::env::Env;
use std::process::ExitCode;
use std::str;

fn main(rt: HostRuntime) -> ExitCode {
    let mut name = [0; 64];
    let Ok(length) = rt.arg(1, &mut name) else {
        return ExitCode::from(2);
    };
    let row = str::from_utf8(name.get(..length).unwrap_or(b"")).unwrap_or("");
    match outcome(rt.alloc(), row) {
        Outcome::Answered(true) => ExitCode::SUCCESS,
        Outcome::OutOfMemory(true) => ExitCode::from(3),
        Outcome::Unready => ExitCode::from(4),
        Outcome::NoRow => ExitCode::from(2),
        _ => ExitCode::FAILURE,
    }
}

fn outcome(alloc: Global, row: &str) -> Outcome {
    match texts::outcome(alloc, row) {
        Outcome::NoRow => match shell::outcome(alloc, row) {
            Outcome::NoRow => match tools::outcome(alloc, row) {
                Outcome::NoRow => commands::outcome(alloc, row),
                outcome => outcome,
            },
            outcome => outcome,
        },
        outcome => outcome,
    }
}
