//! The command line with `help` spelled out, and the texts of its faults.
ghost use Rattle.std.specs.Prelude.{◌≡◌, IfOk, map, string_bytes};
ghost use Rattle.std.specs.Option.{option_copied};
ghost use Rattle.command_line.specs.Prelude.{is_file_tip, is_left_out, reworded, reworded_line, single_spaced, spaced_line, spelled_out};

use crate::tips;
use runs::Tool;
use std::alloc::{AllocError, Global};

/// The option that asks for help.
const HELP_OPTION: &str = "--help";

/// How clap's usage begins.
const USAGE: &str = "Usage: ";

/// How a further line of it begins.
const FURTHER_USAGE: &str = "       pokit ";

/// How clap's tips begin.
const TIP: &str = "  tip: ";

/// How clap's tip to pass an unknown option as an argument begins.
const FILE_TIP: &str = "  tip: to pass '";

/// A line with nothing in it.
const BLANK: &str = "\n";

/// The command line, where `help TOOL` is spelled out as `TOOL --help`, and `help` as `--help`.
/// What follows `help TOOL` is left out.
pub fn spelled_out(alloc: Global, arguments: &[String]) -> Result<Vec<&str>, AllocError>
    ensures { IfOk result (λ spelled. map (λ word. word.now) spelled.items
        ≡ spelled_out (map string_bytes arguments.now)) }
{
    match arguments {
        [program, word] if word.as_str() == "help" => {
            Ok(vec![in alloc; program.as_str(), HELP_OPTION]?)
        }
        [program, word, tool, ..] if word.as_str() == "help" => {
            Ok(vec![in alloc; program.as_str(), tool.as_str(), HELP_OPTION]?)
        }
        _ => as_they_are(alloc, arguments),
    }
}

/// The words of a command line, borrowed.
fn as_they_are(alloc: Global, arguments: &[String]) -> Result<Vec<&str>, AllocError>
    ensures { IfOk result (λ words. map (λ word. word.now) words.items ≡ map string_bytes arguments.now) }
{
    let mut words = Vec::with_capacity(alloc, arguments.len())?;
    for argument in arguments {
        words.push(argument.as_str())?;
    }
    Ok(words)
}

/// The text of a fault of the command line, from clap's text of it. An option or a tool that GNU's
/// alone has gets one tip, in place of clap's. For a tool that takes files clap's tip to pass an
/// unknown option as a file is omitted.
pub fn reworded(alloc: Global, tool: Option<Tool>, text: &str) -> Result<String, AllocError>
    ensures { IfOk result (λ answer. string_bytes answer ≡ reworded tool text.now) }
{
    let tip = tips::own_tip(alloc, tool, text)?;
    let mut answer = String::with_capacity(alloc, text.len())?;
    for line in text.split_inclusive('\n') {
        answer.push_str(reworded_line(tool, tip.as_deref(), line))?;
    }
    single_spaced(alloc, answer.as_str())
}

/// What becomes of a line of clap's, by the own tip.
fn reworded_line<'l>(tool: Option<Tool>, tip: Option<&'l str>, line: &'l str) -> &'l str
    ensures { result.now ≡ reworded_line tool (option_copied tip.entry) line.entry.now }
{
    match tip {
        Some(tip) if line.starts_with(USAGE) => tip,
        Some(_) if is_left_out(line) => "",
        Some(_) => line,
        None if is_file_tip(tool, line) => "",
        None => line,
    }
}

/// Whether the line is a tip of clap's, or a further line of its usage.
fn is_left_out(line: &str) -> bool
    ensures { result ≡ is_left_out line.now }
{
    line.starts_with(TIP) || line.starts_with(FURTHER_USAGE)
}

/// Whether the line is clap's tip to pass an unknown option as a file.
fn is_file_tip(tool: Option<Tool>, line: &str) -> bool
    ensures { result ≡ is_file_tip tool line.now }
{
    tips::takes_files(tool) && line.starts_with(FILE_TIP)
}

/// The text, with one of the blank lines that follow each other.
fn single_spaced(alloc: Global, text: &str) -> Result<String, AllocError>
    ensures { IfOk result (λ answer. string_bytes answer ≡ single_spaced text.now) }
{
    let mut answer = String::with_capacity(alloc, text.len())?;
    let mut before = "";
    for line in text.split_inclusive('\n') {
        answer.push_str(spaced_line(before, line))?;
        before = line;
    }
    Ok(answer)
}

/// What becomes of a line after another: nothing, if both are blank.
fn spaced_line<'l>(before: &str, line: &'l str) -> &'l str
    ensures { result.now ≡ spaced_line (before.now, line.now) }
{
    if before == BLANK && line == BLANK {
        ""
    } else {
        line
    }
}
