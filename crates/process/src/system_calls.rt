//! The calls of a system that the program makes, each by one method.
use crate::answers::Found;
use runs::Owner;
use std::alloc::Global;
use std::env::FillError;
use std::io::{ErrorKind, Read, Write};

/// The system of a process: its arguments and environment, files, and standard streams. What reads
/// changes nothing; what is called for an output is noted.
pub trait SystemCalls {
    ghost use Rattle.std.specs.Prelude.{◌≡◌, ◌∷◌, [], ℕ, List, Option, MatchResult, is_some, option_map};
    ghost use Rattle.std.specs.String.{string_bytes};
    ghost use Rattle.process.specs.SystemCalls.{CallLog, called, appends, creates, draws, empties, fails_to_create, fails_to_read_link, gives_mode, gives_owner, has_stream, leaves_open, opens_root, reads_link, removes, renames, takes_errors, takes_output, tells_descriptor, tells_of, tells_owner};
    ghost use Rattle.process.specs.Value.{Fills};

    /// An open file.
    type File: Read + Write + Drop;

    /// Standard input.
    type Input: Read + Drop;

    /// Standard output.
    type Output: Write + Drop;

    /// Standard error.
    type Errors: Write + Drop;

    // What the argument of an index may be, or None after the last. The first has the index 1.
    ghost argument: { Self → ℕ → Option (List ℕ) → Type 0 };

    // What the variable of a name may be, or None where it isn't set.
    ghost value: { Self → List ℕ → Option (List ℕ) → Type 0 };

    // What the entry of the environment of an index may be, or None after the last. The first has
    // the index 0.
    ghost entry: { Self → ℕ → Option (List ℕ) → Type 0 };

    // What opening the file at a path may come to: None where it can't be opened, and else the
    // bytes that it holds, where they are known.
    ghost opens: { Self → List ℕ → Option (Option (List ℕ)) → Type 0 };

    // The bytes that standard input may give, where they are known.
    ghost input: { Self → Option (List ℕ) → Type 0 };

    // The calls for outputs up to now with their answers, where they are known.
    ghost calls: { Self → CallLog };

    /// Copies the argument of this index to the beginning of the room, and returns its length.
    fn argument(&self, index: usize, room: &mut [u8]) -> Result<usize, FillError>
        ensures { Fills (argument self.now index) room.new result };

    /// Copies the value of the variable of this name, as `argument` does.
    fn variable(&self, name: &str, room: &mut [u8]) -> Result<usize, FillError>
        ensures { Fills (value self.now name.now) room.new result };

    /// Copies the entry of the environment of this index, as `argument` does.
    fn entry(&self, index: usize, room: &mut [u8]) -> Result<usize, FillError>
        ensures { Fills (entry self.now index) room.new result };

    /// Opens the file at this path, to read it.
    fn open(&self, path: &str) -> Option<Self::File>
        ensures { opens self.now path.now (option_map Self.File.remaining result) };

    /// How many bytes an open file has, where the system says so.
    fn length(&self, file: &Self::File) -> Option<u64>;

    /// Standard input.
    fn input(&self) -> Self::Input
        ensures { input self.now (Self.Input.remaining result) };

    /// Whether standard input is open.
    fn has_input(&mut self) -> bool
        ensures { calls self.new ≡ called (has_stream 0 result ∷ []) (calls self.old) };

    /// Whether standard output is open.
    fn has_output(&mut self) -> bool
        ensures { calls self.new ≡ called (has_stream 1 result ∷ []) (calls self.old) };

    /// Whether standard error is open.
    fn has_errors(&mut self) -> bool
        ensures { calls self.new ≡ called (has_stream 2 result ∷ []) (calls self.old) };

    /// Opens the root folder, which can be neither read nor written.
    fn root(&mut self) -> Option<Self::File>
        ensures { calls self.new ≡ called (opens_root (is_some result) ∷ []) (calls self.old) };

    /// The number of an open file's descriptor.
    fn descriptor(&mut self, file: &Self::File) -> u32
        ensures { calls self.new ≡ called (tells_descriptor result ∷ []) (calls self.old) };

    /// Leaves a file open for as long as the process runs.
    fn leave_open(&mut self, file: Self::File)
        ensures { calls self.new ≡ called (leaves_open ∷ []) (calls self.old) };

    /// What the system tells of the file to which a path leads, through links.
    fn found(&mut self, path: &str) -> Result<Found, ErrorKind>
        ensures { calls self.new ≡ called (tells_of path.now result ∷ []) (calls self.old) };

    /// The text of the link at this path.
    fn link(&mut self, alloc: Global, path: &str) -> Result<String, ErrorKind>
        ensures { MatchResult result
            (λ text. calls self.new ≡ called (reads_link path.now (string_bytes text) ∷ []) (calls self.old))
            (λ error. calls self.new ≡ called (fails_to_read_link path.now error ∷ []) (calls self.old)) };

    /// A random number, where the system has one.
    fn random(&mut self) -> Option<u32>
        ensures { calls self.new ≡ called (draws result ∷ []) (calls self.old) };

    /// Makes a file that isn't there yet, with this mode less the umask, and opens it.
    fn create(&mut self, path: &str, mode: u32) -> Result<Self::File, ErrorKind>
        ensures { MatchResult result
            (λ file. calls self.new ≡ called (creates path.now mode (Self.File.contents file) ∷ []) (calls self.old))
            (λ error. calls self.new ≡ called (fails_to_create path.now mode error ∷ []) (calls self.old)) };

    /// Whose an open file is, where the system says so.
    fn owner(&mut self, file: &Self::File) -> Option<Owner>
        ensures { calls self.new ≡ called (tells_owner result ∷ []) (calls self.old) };

    /// Gives an open file this group, and this user where there is one. Returns whether it did.
    fn give_owner(&mut self, file: &Self::File, user: Option<u32>, group: u32) -> bool
        ensures { calls self.new ≡ called (gives_owner user group result ∷ []) (calls self.old) };

    /// Gives an open file this mode. Returns whether it did.
    fn give_mode(&mut self, file: &Self::File, mode: u32) -> bool
        ensures { calls self.new ≡ called (gives_mode mode result ∷ []) (calls self.old) };

    /// Opens the file at this path to be written, and empties it.
    fn empty(&mut self, path: &str) -> Option<Self::File>
        ensures { calls self.new ≡ called (empties path.now (option_map Self.File.contents result) ∷ []) (calls self.old) };

    /// Opens the file at this path to be written at its end.
    fn append(&mut self, path: &str) -> Option<Self::File>
        ensures { calls self.new ≡ called (appends path.now (option_map Self.File.contents result) ∷ []) (calls self.old) };

    /// Standard output.
    fn output(&mut self) -> Self::Output
        ensures { calls self.new ≡ called (takes_output (Self.Output.contents result) ∷ []) (calls self.old) };

    /// Standard error.
    fn errors(&mut self) -> Self::Errors
        ensures { calls self.new ≡ called (takes_errors (Self.Errors.contents result) ∷ []) (calls self.old) };

    /// Gives the file at one path another, in place of what is there. Returns whether it did.
    fn rename(&mut self, from: &str, to: &str) -> bool
        ensures { calls self.new ≡ called (renames from.now to.now result ∷ []) (calls self.old) };

    /// Removes the file at this path.
    fn remove(&mut self, path: &str)
        ensures { calls self.new ≡ called (removes path.now ∷ []) (calls self.old) };
}
