//! What answers of a system mean.
ghost use Rattle.std.specs.Prelude.{◌≡◌};
ghost use Rattle.process.specs.Prelude.{is_for_writing, kind_of, make_fault, no_link, rights_of};

use crate::cutting::cut;
use runs::{FileKind, MakeFault, OutputFault, Owner, Rights};
use std::io::ErrorKind;

/// The bits of a mode that say who may do what with a file, set-user-id, set-group-id and sticky
/// among them.
const PERMISSION_BITS: u32 = 0o7777;

/// What a system tells of the file to which a path leads.
#[derive(Clone, Copy, Debug)]
pub struct Found {
    /// Whether it is a regular file.
    pub is_regular: bool,
    /// How many names it has.
    pub names: u64,
    /// Its mode, with the bits that say what kind of file it is.
    pub mode: u32,
    /// Whose it is.
    pub owner: Owner,
}

/// Who may do what with a file.
pub fn rights_of(found: Found) -> Rights
    ensures { result ≡ rights_of found }
{
    Rights {
        mode: found.mode & PERMISSION_BITS,
        owner: found.owner,
    }
}

/// What a path leads to, by what the system tells of it, or by the error that it tells instead.
pub fn kind_of(answer: Result<Found, ErrorKind>) -> FileKind
    ensures { result ≡ kind_of answer }
{
    match answer {
        Ok(found) if found.is_regular && found.names > 0 => {
            FileKind::Regular(Some(rights_of(found)))
        }
        Ok(_) => FileKind::Special,
        Err(ErrorKind::NotFound) => FileKind::Regular(None),
        Err(_) => FileKind::Unknown,
    }
}

/// Whether an error that comes instead of a link's text says that no link is there, or that it
/// can't be read.
pub fn no_link(error: ErrorKind) -> Result<(), OutputFault>
    ensures { result ≡ no_link error }
{
    match error {
        ErrorKind::InvalidInput | ErrorKind::NotFound => Ok(()),
        ErrorKind::OutOfMemory => Err(OutputFault::OutOfMemory),
        _ => Err(OutputFault::CannotCreate),
    }
}

/// Why a new file isn't made, by the error of the system.
pub fn make_fault(error: ErrorKind) -> MakeFault
    ensures { result ≡ make_fault error }
{
    match error {
        ErrorKind::AlreadyExists => MakeFault::Exists,
        ErrorKind::PermissionDenied | ErrorKind::ReadOnlyFilesystem => MakeFault::Forbidden,
        _ => MakeFault::Failed,
    }
}

/// Whether a descriptor is open to be written, by what the system tells of it in
/// `/proc/self/fdinfo`.
pub fn is_for_writing(info: &[u8]) -> bool
    ensures { result ≡ is_for_writing info.now }
{
    let mut rest = info;
    loop {
        let (line, after) = cut(rest, b'\n');
        if line.starts_with(b"flags:") {
            return line.ends_with(b"1") || line.ends_with(b"2");
        }
        let Some(after) = after else {
            return false;
        };
        rest = after;
    }
}
