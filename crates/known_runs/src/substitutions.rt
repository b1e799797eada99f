//! Standard input with its references to variables replaced.
ghost use Rattle.std.specs.Prelude.{◌≡◌};
ghost use Rattle.std.specs.Option.{option_copied, option_to_list};
ghost use Rattle.known_runs.specs.Prelude.{EndsSubstituted, IsStatusOrInputFault, end_of, entry_texts, operands_of, values_by};

use crate::in_memory::{Ended, run_in_memory};
use crate::words::Words;
use known_system::{KnownFiles, KnownSource, Questions};
use runs::{ProgramFault, Tool};
use std::alloc::Global;
use std::slice;

/// Runs `envsubst`, or `envsubst SHELL-FORMAT`, with this text on standard input, in an environment
/// with these entries.
pub fn envsubst_in_memory(
    alloc: Global,
    format: Option<&str>,
    text: &[u8],
    entries: &[&[u8]],
) -> Ended
    ensures { EndsSubstituted (values_by (option_copied format.entry) (entry_texts entries.now)) text.now
        (end_of result) }
{
    let mut source = KnownSource {
        files: &[],
        standard: text,
        variables: &[],
        entries,
        asked: Questions::new(),
    };
    let words = words_of(&format);
    let none = KnownFiles::new(alloc);
    let (result, reached) = run_in_memory(alloc, Tool::Envsubst, &mut source, none, &words);
    Ended {
        result: status_or_input_fault(result),
        file: None,
        out: reached.out,
        err: reached.err,
    }
}

/// The words of a command line with this SHELL-FORMAT, or without one.
fn words_of<'a>(format: &'a Option<&'a str>) -> Words<'a>
    ensures { operands_of result ≡ option_to_list (option_copied format.now) }
{
    let operands = match format {
        Some(format) => slice::from_ref(format),
        None => &[],
    };
    Words {
        operands,
        output: None,
    }
}

/// The status, or the fault of a run that reads standard input alone.
fn status_or_input_fault(ran: Result<u8, ProgramFault<'_>>) -> Result<u8, ProgramFault<'static>>
    ensures { IsStatusOrInputFault ran.entry result }
{
    match ran {
        Ok(status) => Ok(status),
        Err(ProgramFault::ReadFault(_)) => Err(ProgramFault::ReadFault("<stdin>")),
        Err(_) => Err(ProgramFault::OutOfMemory),
    }
}
