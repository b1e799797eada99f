//! The calls of the system by which an output file is made, and what a new one keeps of the rights
//! of the one that it replaces.
ghost use Rattle.std.specs.Prelude.{◌≡◌, []};
ghost use Rattle.runs.specs.Prelude.{logged, first_mode, kept_bits, kept_mode};
ghost use Rattle.runs.specs.declared.output_files.OutputFault.TheVariants.{OutOfMemory};

use crate::device::Counted;
use std::alloc::{AllocError, Global};
use std::io::Write;

/// The mode of a file that replaces none, of which the system takes the umask.
const SYSTEM_MODE: u32 = 0o666;

/// The mode of a file that replaces another, until it has the mode that is kept: it is its owner's
/// alone.
const PRIVATE_MODE: u32 = 0o600;

/// Whose a file is: a user and a group, by their numbers.
#[derive(Clone, Copy, Debug, PartialEq, Eq)]
pub struct Owner {
    /// The number of the user.
    pub user: u32,
    /// The number of the group.
    pub group: u32,
}

/// Who may do what with a file.
#[derive(Clone, Copy, Debug, PartialEq, Eq)]
pub struct Rights {
    /// The mode: what its owner, its group and others may do, nine bits, and set-user-id,
    /// set-group-id and sticky, three.
    pub mode: u32,
    /// Whose the file is.
    pub owner: Owner,
}

/// What a path leads to, through links or not.
#[derive(Clone, Copy, Debug, PartialEq, Eq)]
pub enum FileKind {
    /// A regular file with these rights, or no file yet.
    Regular(Option<Rights>),
    /// What is no regular file with a name: a device, a pipe, a folder.
    Special,
    /// The system doesn't say.
    Unknown,
}

/// Why a new file isn't made.
#[derive(Clone, Copy, Debug, PartialEq, Eq)]
pub enum MakeFault {
    /// A file with this name is there.
    Exists,
    /// No file may be made in the folder.
    Forbidden,
    /// The call failed for another reason.
    Failed,
}

/// Why a run isn't written.
#[derive(Clone, Copy, Debug, PartialEq, Eq)]
pub enum OutputFault {
    /// The output file can't be made.
    CannotCreate,
    /// The output, or standard error, took no more.
    WriteFault,
    /// An allocation failed.
    OutOfMemory,
}

impl From<AllocError> for OutputFault {
    ghost from_gives = { λ _ fault. fault ≡ OutOfMemory };

    fn from(_error: AllocError) -> OutputFault {
        OutputFault::OutOfMemory
    }
}

/// The files of a system, as outputs are made, and the streams that are open: what is asked of the
/// system, a question a call.
pub trait OutputFiles {
    ghost use Rattle.std.specs.Prelude.{◌∷◌, MatchResult, MatchOption, option_map};
    ghost use Rattle.std.specs.String.{string_bytes};
    ghost use Rattle.runs.specs.Device.{counted_failures, counted_inner};
    ghost use Rattle.runs.specs.OutputFiles.{FileLog, asks, reads_link, fails_to_read_link, numbers, makes, fails_to_make, sets_owner, sets_mode, opens, fails_to_open, takes_stream, lacks_stream, closes, renames, removes};

    /// A file or a stream that is open to be written.
    type File: Write + Drop;

    // The calls up to now with their answers, where they are known.
    ghost log: { Self → FileLog };

    /// What the path leads to, where links are followed.
    fn kind(&mut self, path: &str) -> FileKind
        ensures { log self.new ≡ logged (asks path.now result ∷ []) (log self.old) };

    /// Where the link at this path leads, or `None` where no link is there.
    fn link(&mut self, alloc: Global, path: &str) -> Result<Option<String>, OutputFault>
        ensures { MatchResult result
            (λ link. log self.new ≡ logged (reads_link path.now (option_map string_bytes link) ∷ []) (log self.old))
            (λ why. log self.new ≡ logged (fails_to_read_link path.now why ∷ []) (log self.old)) };

    /// A number for the name of a new file, hardly ever one that was given before.
    fn number(&mut self) -> u32
        ensures { log self.new ≡ logged (numbers result ∷ []) (log self.old) };

    /// Makes a file that isn't there yet, with this mode less the umask, and opens it.
    fn create_new(&mut self, path: &str, mode: u32) -> Result<Self::File, MakeFault>
        ensures { MatchResult result
            (λ file. log self.new ≡ logged (makes path.now mode (Self.File.contents file) ∷ []) (log self.old))
            (λ why. log self.new ≡ logged (fails_to_make path.now mode why ∷ []) (log self.old)) };

    /// Gives an open file this owner, as far as the system lets the run do that. Returns whose it
    /// is then, where the system says so.
    fn set_owner(&mut self, file: &Self::File, owner: Owner) -> Option<Owner>
        ensures { log self.new ≡ logged (sets_owner owner result ∷ []) (log self.old) };

    /// Gives an open file this mode. Returns whether it has it.
    fn set_mode(&mut self, file: &Self::File, mode: u32) -> bool
        ensures { log self.new ≡ logged (sets_mode mode result ∷ []) (log self.old) };

    /// Opens the file at this path itself, and empties it.
    fn open(&mut self, path: &str) -> Option<Self::File>
        ensures { MatchOption result
            (log self.new ≡ logged (fails_to_open path.now ∷ []) (log self.old))
            (λ file. log self.new ≡ logged (opens path.now (Self.File.contents file) ∷ []) (log self.old)) };

    /// The open stream of this number, where it stands, or `None` where the process has none.
    fn stream(&mut self, number: u32) -> Option<Self::File>
        ensures { MatchOption result
            (log self.new ≡ logged (lacks_stream number ∷ []) (log self.old))
            (λ file. log self.new ≡ logged (takes_stream number (Self.File.contents file) ∷ []) (log self.old)) };

    /// Closes a file, or lets a stream go. Returns whether the system has taken all that was
    /// written.
    fn close(&mut self, file: Counted<Self::File>) -> bool
        ensures { log self.new ≡ logged (closes (Self.File.contents (counted_inner file)) (counted_failures file) result ∷ [])
            (log self.old) };

    /// Gives the file at one path another, in place of what is there. Returns whether it did.
    fn rename(&mut self, from: &str, to: &str) -> bool
        ensures { log self.new ≡ logged (renames from.now to.now result ∷ []) (log self.old) };

    /// Removes the file at this path.
    fn remove(&mut self, path: &str)
        ensures { log self.new ≡ logged (removes path.now ∷ []) (log self.old) };
}

/// The mode with which a new file is made.
pub(crate) fn first_mode(old: Option<Rights>) -> u32
    ensures { result ≡ first_mode old }
{
    match old {
        None => SYSTEM_MODE,
        Some(_) => PRIVATE_MODE,
    }
}

/// The mode of a new file, by the rights of the one that it replaces and whose the new one is,
/// where that is known.
pub(crate) fn kept_mode(old: Rights, owner: Option<Owner>) -> u32
    ensures { result ≡ kept_mode old owner }
{
    match owner {
        None => kept_bits(old.mode, false, false),
        Some(owner) => kept_bits(
            old.mode,
            owner.user == old.owner.user,
            owner.group == old.owner.group,
        ),
    }
}

/// What is kept of a mode, by whether the file's user and its group are the same as before.
/// Set-user-id, set-group-id and sticky never are. Where one is another, others may not write;
/// where the group is another, it and others may what both might.
fn kept_bits(mode: u32, same_user: bool, same_group: bool) -> u32
    ensures { result ≡ kept_bits mode same_user same_group }
{
    match (same_user, same_group) {
        (true, true) => mode & 0o777,
        (false, true) => mode & 0o775,
        (_, false) => {
            let both = mode & mode >> 3 & 0o5;
            mode & 0o700 | both << 3 | both
        }
    }
}
