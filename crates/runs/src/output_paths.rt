//! The paths at which an output is made.
ghost use Rattle.std.specs.Prelude.{◌≡◌, ◌≢◌, ◌^◌, ◌<◌, ℕ, IfOk, MatchOption, decimal};
ghost use Rattle.std.specs.String.{string_bytes};
ghost use Rattle.runs.specs.Prelude.{NamesNoStream, NamesStream, beside};

use itoa::Buffer;
use std::alloc::{AllocError, Global};
use std::path::Path;

/// The number of standard output among the descriptors of a process, and that of standard error.
const STDOUT_NUMBER: u32 = 1;

const STDERR_NUMBER: u32 = 2;

/// What a new file is called where the file that it replaces has no name, or too long a one.
const OTHER_NAME: &str = "output";

/// The longest name that a new file's begins with, in bytes.
const NAME_LIMIT: usize = 200;

/// The path of a new file beside the one at this path: a `.`, its name, another `.` and the number.
pub(crate) fn beside(alloc: Global, path: &str, number: u32) -> Result<String, AllocError>
    ensures { IfOk result (λ made. string_bytes made ≡ beside path.now number) }
{
    let path = Path::new(path);
    let mut digits = Buffer::new();
    let mut name = String::from_str(alloc, ".")?;
    name.push_str(match path.file_name() {
        Some(own) if own.len() <= NAME_LIMIT => own,
        _ => OTHER_NAME,
    })?;
    name.push_str(".")?;
    name.push_str(digits.format(number))?;
    Ok(path.with_file_name(alloc, &name)?.into_string())
}

/// The number of the open stream that the path names, of the process that looks it up. `None` where
/// the path is one of the file system.
pub(crate) fn stream_named(path: &str) -> Option<u32>
    ensures { MatchOption result (NamesNoStream path.now) (λ number. NamesStream path.now number) }
{
    if path == "/dev/stdout" {
        return Some(STDOUT_NUMBER);
    }
    if path == "/dev/stderr" {
        return Some(STDERR_NUMBER);
    }
    if let Some(digits) = path.strip_prefix("/dev/fd/") {
        return number_of(digits);
    }
    number_of(path.strip_prefix("/proc/self/fd/")?)
}

/// The number that these digits are, as it is written.
fn number_of(digits: &str) -> Option<u32>
    ensures { MatchOption result ((n : ℕ) → n < 2 ^ 32 → digits.now ≢ decimal n)
        (λ number. (number < 2 ^ 32) × (digits.now ≡ decimal number)) }
{
    let number = digits.parse::<u32>().ok()?;
    if Buffer::new().format(number) == digits {
        Some(number)
    } else {
        None
    }
}
