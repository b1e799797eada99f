//! The arguments, which are text, and the environment's variables, whose values are bytes and
//! needn't be text.
ghost use Rattle.std.specs.Prelude.{◌≡◌, ◌==◌, ◌⊎◌, None, codes, length, map, string_bytes, true, IfErr, IfOk, option_map};
ghost use Rattle.std.specs.List.{slice_split};
ghost use Rattle.runs.specs.Inputs.{gives};
ghost use Rattle.process.specs.Prelude.{AreArguments, AreEntries, AreValues, HasNoText, ReadsFile};

use crate::cutting::cut;
use crate::reading::read_named;
use crate::system_calls::SystemCalls;
use crate::value::{Value, ask};
use runs::{InputFault, ProgramFault};
use std::alloc::{AllocError, Global};

const PROGRAM: &str = "pokit";

/// How many entries of the environment are asked for one by one.
const FEW_ENTRIES: usize = 512;

/// The file with the entries of this process's environment, as it began.
const ENTRIES_FILE: &str = "/proc/self/environ";

/// The name of the program, and the arguments. These are text, all or none; the path by which the
/// program was started isn't asked for.
pub fn arguments<S: SystemCalls>(
    alloc: Global,
    system: &S,
) -> Result<Vec<String>, ProgramFault<'static>>
    ensures words { IfOk result (λ words. AreArguments (S.argument system.now) (map string_bytes words.items)) }
    ensures fault { IfErr result (λ fault. (fault ≡ ProgramFault.OutOfMemory)
        ⊎ ((fault ≡ ProgramFault.NotText) × HasNoText (S.argument system.now))) }
{
    let mut arguments = Vec::new(alloc);
    arguments.push(String::from_str(alloc, PROGRAM)?)?;
    loop {
        let Some(argument) = ask(alloc, system, Value::Argument(arguments.len()))? else {
            return Ok(arguments);
        };
        match String::from_utf8(argument) {
            Ok(text) => arguments.push(text)?,
            Err(_) => return Err(ProgramFault::NotText),
        }
    }
}

/// The value of the variable of this name, where it is set.
pub fn variable<S: SystemCalls>(
    alloc: Global,
    system: &S,
    name: &str,
) -> Result<Option<Vec<u8>>, AllocError>
    ensures { IfOk result (λ value. S.value system.now name.now (option_map (λ v. v.items) value)) }
{
    ask(alloc, system, Value::Variable(name))
}

/// All entries of the environment. Where there are many, they are taken from the text that has them
/// all, if that can be read, since the system walks to each entry from the first.
pub fn entries<S: SystemCalls>(alloc: Global, system: &S) -> Result<Vec<Vec<u8>>, AllocError>
    ensures { IfOk result (λ entries. AreEntries (S.entry system.now)
        (λ text. ReadsFile (S.opens system.now (codes "/proc/self/environ")) (gives text))
        (map (λ entry. entry.items) entries.items)) }
{
    let mut entries = Vec::new(alloc);
    if push_entries(alloc, system, &mut entries, FEW_ENTRIES)? {
        return Ok(entries);
    }
    let mut text = Vec::new(alloc);
    match read_named(system, &mut text, ENTRIES_FILE) {
        Ok(()) => return split(alloc, &text),
        Err(InputFault::OutOfMemory) => return Err(AllocError),
        Err(InputFault::CannotOpen | InputFault::ReadFault) => {}
    }
    loop {
        match ask(alloc, system, Value::Entry(entries.len()))? {
            Some(entry) => entries.push(entry)?,
            None => return Ok(entries),
        }
    }
}

/// Appends the entries that follow, until there are `most`. Returns whether the last one is there.
fn push_entries<S: SystemCalls>(
    alloc: Global,
    system: &S,
    entries: &mut Vec<Vec<u8>>,
    most: usize,
) -> Result<bool, AllocError>
    requires { AreValues (S.entry system.now) 0 (map (λ entry. entry.items) entries.old.items) }
    ensures entries { IfOk result (λ _. AreValues (S.entry system.now) 0 (map (λ entry. entry.items) entries.new.items)) }
    ensures end { IfOk result (λ is_all. is_all ≡ true
        → S.entry system.now (length (map (λ entry. entry.items) entries.new.items)) None) }
{
    for index in entries.len()..most {
        match ask(alloc, system, Value::Entry(index))? {
            Some(entry) => entries.push(entry)?,
            None => return Ok(true),
        }
    }
    Ok(false)
}

/// The entries of a text that has a NUL after each.
fn split(alloc: Global, text: &[u8]) -> Result<Vec<Vec<u8>>, AllocError>
    ensures { IfOk result (λ entries. map (λ entry. entry.items) entries.items
        ≡ slice_split (λ byte. byte == 0) text.now) }
{
    let mut entries = Vec::new(alloc);
    let mut rest = text;
    loop {
        let (entry, after) = cut(rest, 0);
        entries.push(Vec::from_slice(alloc, entry)?)?;
        let Some(after) = after else {
            return Ok(entries);
        };
        rest = after;
    }
}
