//! Output files by the calls of a system.
ghost use Rattle.std.specs.Prelude.{◌≡◌, ◌++◌, ◌<◌, IfOk, IfSome, codes, decimal, option_map};
ghost use Rattle.std.specs.String.{string_bytes};
ghost use Rattle.process.specs.Prelude.{GivesOwner, TakesStream, ReadsFile, Does};
ghost use Rattle.runs.specs.Inputs.{gives};

use crate::answers::{is_for_writing, kind_of, make_fault, no_link};
use crate::opened::Opened;
use crate::reading::read_named;
use crate::system_calls::SystemCalls;
use runs::{Counted, FileKind, MakeFault, OutputFault, OutputFiles, Owner};
use std::alloc::{AllocError, Global};

/// The files of a system, as outputs are made.
#[derive(Drop)]
pub struct SystemFiles<S> {
    alloc: Global,
    /// The system.
    pub system: S,
    /// How often the system had no random number.
    pub lacking: u32,
}

impl<S: SystemCalls> SystemFiles<S> {
    /// The files of this system, which had a random number each time yet.
    pub fn new(alloc: Global, system: S) -> SystemFiles<S>
        ensures system { result.system ≡ system }
        ensures lacking { result.lacking ≡ 0 }
    {
        SystemFiles {
            alloc,
            system,
            lacking: 0,
        }
    }
}

// The calls of the system are known, where its log is; that of an output's own calls isn't kept.
impl<S: SystemCalls> OutputFiles for SystemFiles<S> {
    ghost use Rattle.std.specs.Prelude.{◌≡◌, ◌∷◌, [], None, MatchResult, option_map, true};
    ghost use Rattle.std.specs.String.{string_bytes};
    ghost use Rattle.process.specs.OutputCalls.{FindsKind, FindsLink, GivesOwner, LacksFile, LacksLink, Numbers, SetsMode, SetsOwner, TakesStream, bytes_of};
    ghost use Rattle.process.specs.SystemCalls.{Does, called, creates, empties, removes, renames};
    ghost use Rattle.runs.specs.Prelude.{counted_failures, counted_inner, logged};
    ghost use Rattle.runs.specs.OutputFiles.{closes};

    type File = Opened<S::File, S::Output, S::Errors>;

    ghost log = { λ _. None };

    fn kind(&mut self, path: &str) -> FileKind
        ensures { Does (S.calls self.old.system) (S.calls self.new.system) (FindsKind path.now result) }
    {
        kind_of(self.system.found(path))
    }

    fn link(&mut self, alloc: Global, path: &str) -> Result<Option<String>, OutputFault>
        ensures { MatchResult result
            (λ link. Does (S.calls self.old.system) (S.calls self.new.system)
            (FindsLink path.now (option_map string_bytes link)))
            (λ why. Does (S.calls self.old.system) (S.calls self.new.system) (LacksLink path.now why)) }
    {
        match self.system.link(alloc, path) {
            Ok(text) => Ok(Some(text)),
            Err(error) => match no_link(error) {
                Ok(()) => Ok(None),
                Err(why) => Err(why),
            },
        }
    }

    fn number(&mut self) -> u32
        ensures { Does (S.calls self.old.system) (S.calls self.new.system)
            (Numbers self.old.lacking result self.new.lacking) }
    {
        match self.system.random() {
            Some(number) => number,
            None => {
                self.lacking = self.lacking.wrapping_add(1);
                self.lacking
            }
        }
    }

    fn create_new(&mut self, path: &str, mode: u32) -> Result<Self::File, MakeFault>
        ensures { MatchResult result
            (λ file. S.calls self.new.system ≡ called
            (creates path.now mode (bytes_of S.File.contents S.Output.contents S.Errors.contents file) ∷ [])
            (S.calls self.old.system))
            (λ why. Does (S.calls self.old.system) (S.calls self.new.system) (LacksFile path.now mode why)) }
    {
        match self.system.create(path, mode) {
            Ok(file) => Ok(Opened::File(file)),
            Err(error) => Err(make_fault(error)),
        }
    }

    fn set_owner(&mut self, file: &Self::File, owner: Owner) -> Option<Owner>
        ensures { Does (S.calls self.old.system) (S.calls self.new.system) (SetsOwner file.now owner result) }
    {
        match file {
            Opened::File(file) => give_owner(&mut self.system, file, owner),
            Opened::Output(_) | Opened::Errors(_) => None,
        }
    }

    fn set_mode(&mut self, file: &Self::File, mode: u32) -> bool
        ensures { Does (S.calls self.old.system) (S.calls self.new.system) (SetsMode file.now mode result) }
    {
        match file {
            Opened::File(file) => self.system.give_mode(file, mode),
            Opened::Output(_) | Opened::Errors(_) => false,
        }
    }

    fn open(&mut self, path: &str) -> Option<Self::File>
        ensures { S.calls self.new.system ≡ called
            (empties path.now (option_map (bytes_of S.File.contents S.Output.contents S.Errors.contents) result) ∷ [])
            (S.calls self.old.system) }
    {
        match self.system.empty(path) {
            Some(file) => Some(Opened::File(file)),
            None => None,
        }
    }

    fn stream(&mut self, number: u32) -> Option<Self::File>
        ensures { Does (S.calls self.old.system) (S.calls self.new.system) (TakesStream (S.opens self.old.system) number
            (option_map (bytes_of S.File.contents S.Output.contents S.Errors.contents) result)) }
    {
        match number {
            0 => None,
            1 => Some(Opened::Output(self.system.output())),
            2 => Some(Opened::Errors(self.system.errors())),
            _ => match append_to(self.alloc, &mut self.system, number) {
                Some(file) => Some(Opened::File(file)),
                None => None,
            },
        }
    }

    fn close(&mut self, file: Counted<Self::File>) -> bool
        ensures log { None ≡ logged
            (closes (bytes_of S.File.contents S.Output.contents S.Errors.contents (counted_inner file))
            (counted_failures file) result ∷ []) None }
        ensures taken { result ≡ true }
        ensures calls { self.new ≡ self.old }
    {
        drop(file);
        true
    }

    fn rename(&mut self, from: &str, to: &str) -> bool
        ensures { S.calls self.new.system ≡ called (renames from.now to.now result ∷ []) (S.calls self.old.system) }
    {
        self.system.rename(from, to)
    }

    fn remove(&mut self, path: &str)
        ensures { S.calls self.new.system ≡ called (removes path.now ∷ []) (S.calls self.old.system) }
    {
        self.system.remove(path);
    }
}

/// Gives an open file this owner, as far as the system lets the run do that. Returns whose it is
/// then, where the system says so.
fn give_owner<S: SystemCalls>(system: &mut S, file: &S::File, owner: Owner) -> Option<Owner>
    ensures { Does (S.calls system.old) (S.calls system.new) (GivesOwner owner result) }
{
    let now = system.owner(file)?;
    if now == owner {
        return Some(now);
    }
    if system.give_owner(file, Some(owner.user), owner.group) {
        return system.owner(file);
    }
    // Where the user can't be given, the group may.
    let _ = system.give_owner(file, None, owner.group);
    system.owner(file)
}

/// The open stream of a number above those of the standard streams, opened anew to be written at
/// its end, where it is open to be written.
fn append_to<S: SystemCalls>(alloc: Global, system: &mut S, number: u32) -> Option<S::File>
    requires { 2 < number }
    ensures { Does (S.calls system.old) (S.calls system.new)
        (TakesStream (S.opens system.old) number (option_map S.File.contents result)) }
{
    let info_path = format!(in alloc; "/proc/self/fdinfo/{number}").ok()?;
    let mut info = Vec::new(alloc);
    read_named(&*system, &mut info, &info_path).ok()?;
    if !is_for_writing(&info) {
        return None;
    }
    let path = format!(in alloc; "/proc/self/fd/{number}").ok()?;
    system.append(&path)
}
