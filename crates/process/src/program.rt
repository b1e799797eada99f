//! The program: what its command line comes to, and the ending.
ghost use Rattle.std.specs.Prelude.{◌≡◌, ◌≢◌, ◌^◌, ◌<◌, ℕ, List, IfErr, IfOk, MatchOption, MatchResult, OnErr, OnOk, map};
ghost use Rattle.clap.specs.Values.{kind_of};
ghost use Rattle.process.specs.Prelude.{AreRefused, EndsTool, Explains, IsFirst, IsFoundIn, NamesNone, NamesTool, RunsProgram, RunsWords, answers_of, line_of, reached, reader_of, writer};

use crate::endings::{give_help, refuse, report};
use crate::environment::arguments;
use crate::options::Options;
use crate::system_calls::SystemCalls;
use clap::error::ErrorKind;
use clap::{ArgMatches, Error};
use command_line::{program, spelled_out};
use po_tools::{EntrySource, VariableSource};
use runs::{
    Arguments, ByteIn, ByteOut, Ending, InputSource, OutputFiles, OutputSystem, ProgramFault, Tool,
};
use std::alloc::Global;
use std::str::FromStr;

/// Runs the program by the arguments of `process`: the inputs are those of `source`, `reader` is
/// standard input where it is read in blocks, and what a tool writes goes to `system`. Faults for
/// which a tool has no status are told to `errors`.
pub fn run<C: SystemCalls, S, R: ByteIn, F: OutputFiles, O: ByteOut, E: ByteOut, P: ByteOut>(
    alloc: Global,
    process: &C,
    source: &mut S,
    reader: &mut R,
    system: &mut OutputSystem<F, O, E>,
    errors: &mut P,
) -> Ending
where
    S: InputSource + VariableSource + EntrySource,
    requires calls { R.calls reader.old < 2 ^ 63 }
    requires failures { R.failures reader.old < 2 ^ 63 }
    requires out { system.old.out.failures < 2 ^ 63 }
    requires err { system.old.err.failures < 2 ^ 63 }
    requires errors { P.failures errors.old < 2 ^ 63 }
    ensures { RunsProgram ⟦<u32 as FromStr>⟧.from_str_gives (C.argument process.now)
        (answers_of (S.file source.old) (S.standard source.old) (S.variable source.old) (S.entries source.old)) (S.refused source.new)
        (reached (S.asked source.old)
        (reader_of (R.remaining reader.old) (R.calls reader.old) (R.failures reader.old)) system.old)
        (reached (S.asked source.new)
        (reader_of (R.remaining reader.new) (R.calls reader.new) (R.failures reader.new)) system.new)
        (writer (P.contents errors.old) (P.failures errors.old))
        (writer (P.contents errors.new) (P.failures errors.new)) result }
{
    let arguments = match arguments(alloc, process) {
        Ok(arguments) => arguments,
        Err(fault) => return report(errors, None, fault),
    };
    match spelled_out(alloc, arguments.as_slice()) {
        Ok(words) => run_words(alloc, words.as_slice(), source, reader, system, errors),
        Err(why) => report(errors, None, ProgramFault::from(why)),
    }
}

/// Runs the program by the words of a command line.
fn run_words<S, R: ByteIn, F: OutputFiles, O: ByteOut, E: ByteOut, P: ByteOut>(
    alloc: Global,
    words: &[&str],
    source: &mut S,
    reader: &mut R,
    system: &mut OutputSystem<F, O, E>,
    errors: &mut P,
) -> Ending
where
    S: InputSource + VariableSource + EntrySource,
    requires calls { R.calls reader.old < 2 ^ 63 }
    requires failures { R.failures reader.old < 2 ^ 63 }
    requires out { system.old.out.failures < 2 ^ 63 }
    requires err { system.old.err.failures < 2 ^ 63 }
    requires errors { P.failures errors.old < 2 ^ 63 }
    ensures { RunsWords ⟦<u32 as FromStr>⟧.from_str_gives
        (answers_of (S.file source.old) (S.standard source.old) (S.variable source.old) (S.entries source.old)) (S.refused source.new)
        (map (λ word. word.now) words.now)
        (reached (S.asked source.old)
        (reader_of (R.remaining reader.old) (R.calls reader.old) (R.failures reader.old)) system.old)
        (reached (S.asked source.new)
        (reader_of (R.remaining reader.new) (R.calls reader.new) (R.failures reader.new)) system.new)
        (writer (P.contents errors.old) (P.failures errors.old))
        (writer (P.contents errors.new) (P.failures errors.new)) result }
{
    let first = first_tool(words);
    let command = match program(alloc, first) {
        Ok(command) => command,
        Err(why) => return report(errors, first, ProgramFault::from(why)),
    };
    match command.try_get_matches_from(words) {
        Ok(matches) => match named_tool(&matches) {
            Some((tool, given)) => run_tool(
                alloc,
                tool,
                source,
                reader,
                system,
                errors,
                &Options(given),
            ),
            None => Ending::Refused,
        },
        Err(error) => match explain(alloc, first, &error, system) {
            Ok(ending) => ending,
            Err(fault) => report(errors, first, fault),
        },
    }
}

/// The tool that was found, with its options and arguments, or none where no tool has that name.
fn named_tool<'m, 'w>(found: &'m ArgMatches<'w>) -> Option<(Tool, &'m ArgMatches<'w>)>
    ensures { MatchOption result (NamesNone found.now) (λ p. NamesTool found.now p.0 p.1.now) }
{
    let (name, given) = found.subcommand()?;
    Some((Tool::of_name(name)?, given))
}

/// Runs a tool, and reports the fault for which it has no status.
pub fn run_tool<S, R: ByteIn, F: OutputFiles, O: ByteOut, E: ByteOut, P: ByteOut, A: Arguments>(
    alloc: Global,
    tool: Tool,
    source: &mut S,
    reader: &mut R,
    system: &mut OutputSystem<F, O, E>,
    errors: &mut P,
    given: &A,
) -> Ending
where
    S: InputSource + VariableSource + EntrySource,
    requires calls { R.calls reader.old < 2 ^ 63 }
    requires failures { R.failures reader.old < 2 ^ 63 }
    requires out { system.old.out.failures < 2 ^ 63 }
    requires err { system.old.err.failures < 2 ^ 63 }
    requires errors { P.failures errors.old < 2 ^ 63 }
    ensures { EndsTool tool
        (line_of (A.flag given.now) (A.text given.now) (A.texts given.now) (A.number given.now))
        (answers_of (S.file source.old) (S.standard source.old) (S.variable source.old) (S.entries source.old)) (S.refused source.new)
        (reached (S.asked source.old)
        (reader_of (R.remaining reader.old) (R.calls reader.old) (R.failures reader.old)) system.old)
        (reached (S.asked source.new)
        (reader_of (R.remaining reader.new) (R.calls reader.new) (R.failures reader.new)) system.new)
        (writer (P.contents errors.old) (P.failures errors.old))
        (writer (P.contents errors.new) (P.failures errors.new)) result }
{
    match po_tools::run(alloc, tool, source, reader, system, given) {
        Ok(status) => Ending::Ran(status),
        Err(fault) => report(errors, Some(tool), fault),
    }
}

/// The tool that the first argument names, if it names one.
fn first_tool(words: &[&str]) -> Option<Tool>
    ensures { IsFirst (map (λ word. word.now) words.now) result }
{
    match words.get(1) {
        Some(word) => Tool::of_name(word),
        None => None,
    }
}

/// Writes what clap says in place of what it found: help, or what is wrong.
fn explain<F: OutputFiles, O: ByteOut, E: ByteOut>(
    alloc: Global,
    first: Option<Tool>,
    error: &Error,
    system: &mut OutputSystem<F, O, E>,
) -> Result<Ending, ProgramFault<'static>>
    requires out { system.old.out.failures < 2 ^ 63 }
    requires err { system.old.err.failures < 2 ^ 63 }
    ensures text { IfOk result (λ ending. (text : List ℕ) × Explains first text system.old system.new ending) }
    ensures refused { OnOk result (kind_of error.now ≢ ErrorKind.OutOfMemory) }
    ensures memory { IfErr result (λ fault. fault ≡ ProgramFault.OutOfMemory) }
    ensures unwritten { OnErr result (system.new ≡ system.old) }
{
    if error.kind() == ErrorKind::OutOfMemory {
        return Err(ProgramFault::OutOfMemory);
    }
    let text = format!(in alloc; "{error}")?;
    if error.use_stderr() {
        return Ok(refuse(alloc, &mut system.err, first, text.as_str())?);
    }
    Ok(give_help(&mut system.out, text.as_str()))
}
