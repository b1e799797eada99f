//! The calls of the system, one in each function.
use process::{Found, SystemCalls};
use runs::Owner;
use std::alloc::Global;
use std::env::{Env, FillError};
use std::fs::{self, File, Metadata, OpenFile, OpenOptions, Permissions};
use std::io::{ErrorKind, Input};
use std::os::fd::{AsFd, AsRawFd, IntoRawFd};
use std::os::unix::fs::{MetadataExt, OpenOptionsExt, PermissionsExt, fchown};
use std::random::RandomSource;
use std::rt::{Files, Stderr, Stdout};

/// The system in which the process runs.
#[derive(Clone, Copy)]
pub(crate) struct System<'r>(pub(crate) &'r HostRuntime);

// No contract can say what the system answers, so the log of the calls isn't known.
impl<'r> SystemCalls for System<'r> {
    ghost use Rattle.std.specs.Prelude.{None};

    type File = File;

    type Input = <HostRuntime as Input>::Reader;

    type Output = Stdout;

    type Errors = Stderr;

    ghost argument = { λ _ _ _. Unit {0} };

    ghost value = { λ _ _ _. Unit {0} };

    ghost entry = { λ _ _ _. Unit {0} };

    ghost opens = { λ _ _ _. Unit {0} };

    ghost input = { λ _ _. Unit {0} };

    ghost calls = { λ _. None };

    fn argument(&self, index: usize, room: &mut [u8]) -> Result<usize, FillError> {
        self.0.arg(index, room)
    }

    fn variable(&self, name: &str, room: &mut [u8]) -> Result<usize, FillError> {
        self.0.var(name, room)
    }

    fn entry(&self, index: usize, room: &mut [u8]) -> Result<usize, FillError> {
        self.0.var_at(index, room)
    }

    fn open(&self, path: &str) -> Option<File> {
        fs::open(self.0, path).ok()
    }

    fn length(&self, file: &File) -> Option<u64> {
        Some(file.metadata().ok()?.len())
    }

    fn input(&self) -> Self::Input {
        self.0.reader()
    }

    fn has_input(&mut self) -> bool {
        is_open(&self.0.stdin())
    }

    fn has_output(&mut self) -> bool {
        is_open(&self.0.stdout())
    }

    fn has_errors(&mut self) -> bool {
        is_open(&self.0.stderr())
    }

    fn root(&mut self) -> Option<File> {
        fs::open(self.0, "/").ok()
    }

    fn descriptor(&mut self, file: &File) -> u32 {
        file.as_raw_fd().cast_unsigned()
    }

    fn leave_open(&mut self, file: File) {
        let _ = file.into_raw_fd();
    }

    fn found(&mut self, path: &str) -> Result<Found, ErrorKind> {
        match fs::metadata(self.0, path) {
            Ok(found) => Ok(found_in(&found)),
            Err(error) => Err(error.kind()),
        }
    }

    fn link(&mut self, alloc: Global, path: &str) -> Result<String, ErrorKind> {
        match self.0.read_link(alloc, path) {
            Ok(target) => Ok(target.into_string()),
            Err(error) => Err(error.kind()),
        }
    }

    fn random(&mut self) -> Option<u32> {
        let mut bytes = [0; 4];
        self.0.fill_bytes(&mut bytes).ok()?;
        Some(u32::from_ne_bytes(bytes))
    }

    fn create(&mut self, path: &str, mode: u32) -> Result<File, ErrorKind> {
        let mut options = OpenOptions::new();
        options.write(true).create_new(true).mode(mode);
        match options.open(self.0, path) {
            Ok(file) => Ok(file),
            Err(error) => Err(error.kind()),
        }
    }

    fn owner(&mut self, file: &File) -> Option<Owner> {
        Some(found_in(&file.metadata().ok()?).owner)
    }

    fn give_owner(&mut self, file: &File, user: Option<u32>, group: u32) -> bool {
        fchown(file, user, Some(group)).is_ok()
    }

    fn give_mode(&mut self, file: &File, mode: u32) -> bool {
        file.set_permissions(Permissions::from_mode(mode)).is_ok()
    }

    fn empty(&mut self, path: &str) -> Option<File> {
        let mut options = OpenOptions::new();
        options.write(true).truncate(true);
        options.open(self.0, path).ok()
    }

    fn append(&mut self, path: &str) -> Option<File> {
        let mut options = OpenOptions::new();
        options.append(true);
        options.open(self.0, path).ok()
    }

    fn output(&mut self) -> Stdout {
        self.0.stdout()
    }

    fn errors(&mut self) -> Stderr {
        self.0.stderr()
    }

    fn rename(&mut self, from: &str, to: &str) -> bool {
        self.0.rename(from, to).is_ok()
    }

    fn remove(&mut self, path: &str) {
        let _ = self.0.remove_file(path);
    }
}

/// What the system tells of a file.
fn found_in(found: &Metadata) -> Found {
    Found {
        is_regular: found.is_file(),
        names: found.nlink(),
        mode: found.mode(),
        owner: Owner {
            user: found.uid(),
            group: found.gid(),
        },
    }
}

/// Whether the stream is open: only then can its descriptor be duplicated.
fn is_open(stream: &impl AsFd) -> bool {
    stream.as_fd().try_clone_to_owned().is_ok()
}
