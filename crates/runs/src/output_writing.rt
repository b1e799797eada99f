//! How an output is made: whole in a new file beside the one that it replaces, which then gets its
//! path.
ghost use Rattle.runs.specs.Prelude.{Call, Runs, fault_in, Closes, Fills, Puts, Replaces, WritesFile, WritesInPlace};
ghost use Rattle.runs.specs.OutputFiles.{◌▸◌, numbers};

use crate::device::{Counted, put_all};
use crate::output_files::{
    FileKind, MakeFault, OutputFault, OutputFiles, Rights, first_mode, kept_mode,
};
use crate::output_paths::{beside, stream_named};
use std::alloc::Global;
use std::path::Path;

/// How many further names are tried for a new file, where one is taken.
const FURTHER_NAMES: u32 = 999;

/// Writes an output to the file that the path leads to, through at most so many links. Where that
/// is a regular file or isn't there, it is replaced; an open stream is written where it stands, and
/// anything else in place.
pub(crate) fn write_file<T: OutputFiles>(
    alloc: Global,
    files: &mut T,
    path: &str,
    output: &[u8],
    links: u32,
) -> Result<(), OutputFault>
    ensures { Runs (T.log files.old) (T.log files.new) (fault_in result) (WritesFile output.now links path.now) }
{
    if let Some(number) = stream_named(path) {
        return match files.stream(number) {
            Some(stream) => put(files, stream, output),
            None => Err(OutputFault::CannotCreate),
        };
    }
    let old = match files.kind(path) {
        FileKind::Regular(old) => old,
        FileKind::Special => return write_in_place(files, path, output),
        FileKind::Unknown => return Err(OutputFault::CannotCreate),
    };
    match files.link(alloc, path) {
        Err(why) => Err(why),
        Ok(None) => {
            let number = files.number();
            replace(alloc, files, path, old, output, number, FURTHER_NAMES)
        }
        Ok(Some(text)) => {
            if links == 0 {
                return Err(OutputFault::CannotCreate);
            }
            let target = Path::new(path).with_file_name(alloc, &text)?.into_string();
            write_file(alloc, files, &target, output, links - 1)
        }
    }
}

/// Replaces the file at the path, which has these rights or isn't there, by a new file, whose name
/// has this number. Where the name is taken another is tried, at most so often.
fn replace<T: OutputFiles>(
    alloc: Global,
    files: &mut T,
    path: &str,
    old: Option<Rights>,
    output: &[u8],
    number: u32,
    tries: u32,
) -> Result<(), OutputFault>
    ensures { Runs (T.log files.old) (T.log files.new) (fault_in result)
        (λ course. Replaces output.now path.now old tries (numbers number ▸ course)) }
{
    let new = beside(alloc, path, number)?;
    match files.create_new(&new, first_mode(old)) {
        Ok(file) => fill(files, file, path, &new, old, output),
        Err(MakeFault::Exists) => {
            if tries == 0 {
                return Err(OutputFault::CannotCreate);
            }
            let number = files.number();
            replace(alloc, files, path, old, output, number, tries - 1)
        }
        Err(MakeFault::Forbidden) => match old {
            Some(_) => write_in_place(files, path, output),
            None => Err(OutputFault::CannotCreate),
        },
        Err(MakeFault::Failed) => Err(OutputFault::CannotCreate),
    }
}

/// Gives a new file the owner of the one that it replaces, if it does, as far as the system lets
/// the run do that, and what is kept of its mode, and then all of the output and the path. Where
/// that fails it is removed.
fn fill<T: OutputFiles>(
    files: &mut T,
    file: T::File,
    path: &str,
    new: &str,
    old: Option<Rights>,
    output: &[u8],
) -> Result<(), OutputFault>
    ensures { Runs (T.log files.old) (T.log files.new) (fault_in result)
        (Fills output.now (record { path = new.now; target = path.now; made = T.File.contents file }) old) }
{
    if let Some(old) = old {
        let owner = files.set_owner(&file, old.owner);
        if !files.set_mode(&file, kept_mode(old, owner)) {
            files.remove(new);
            return Err(OutputFault::CannotCreate);
        }
    }
    if !put_and_close(files, file, output) {
        files.remove(new);
        return Err(OutputFault::WriteFault);
    }
    if !files.rename(new, path) {
        files.remove(new);
        return Err(OutputFault::CannotCreate);
    }
    Ok(())
}

/// Writes an output to the file at the path itself.
fn write_in_place<T: OutputFiles>(
    files: &mut T,
    path: &str,
    output: &[u8],
) -> Result<(), OutputFault>
    ensures { Runs (T.log files.old) (T.log files.new) (fault_in result) (WritesInPlace output.now path.now) }
{
    match files.open(path) {
        Some(file) => put(files, file, output),
        None => Err(OutputFault::CannotCreate),
    }
}

/// Writes an output to what is open, and closes it.
fn put<T: OutputFiles>(files: &mut T, file: T::File, output: &[u8]) -> Result<(), OutputFault>
    ensures { Runs (T.log files.old) (T.log files.new) (fault_in result) (Puts output.now (T.File.contents file)) }
{
    if put_and_close(files, file, output) {
        Ok(())
    } else {
        Err(OutputFault::WriteFault)
    }
}

/// Writes all of an output to what is open, and closes it. Returns whether all of it was taken.
fn put_and_close<T: OutputFiles>(files: &mut T, file: T::File, output: &[u8]) -> bool
    ensures { Call (T.log files.old) (T.log files.new) (λ close. Closes output.now (T.File.contents file) close result) }
{
    let mut file = Counted::new(file);
    let is_put = put_all(&mut file, output).is_ok();
    files.close(file) && is_put
}
