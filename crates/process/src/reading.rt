//! Inputs by their names.
ghost use Rattle.std.specs.Prelude.{◌≡◌, ◌⊎◌, MatchResult, drop, take, vec_len};
ghost use Rattle.process.specs.Prelude.{ReadsFile};
ghost use Rattle.runs.specs.Inputs.{gives, refuses};

use crate::system_calls::SystemCalls;
use runs::{Counted, InputFault, read_whole};

/// The length of an input where it isn't known.
pub(crate) const UNKNOWN_LEN: u64 = 0;

/// Appends the bytes of the file of this name.
pub(crate) fn read_named<S: SystemCalls>(
    system: &S,
    bytes: &mut Vec<u8>,
    name: &str,
) -> Result<(), InputFault>
    ensures before { take (vec_len bytes.old) bytes.new.items ≡ bytes.old.items }
    ensures reading { MatchResult result
        (λ _. ReadsFile (S.opens system.now name.now) (gives (drop (vec_len bytes.old) bytes.new.items)))
        (λ why. (why ≡ InputFault.OutOfMemory) ⊎ ReadsFile (S.opens system.now name.now) (refuses why)) }
{
    let Some(file) = system.open(name) else {
        return Err(InputFault::CannotOpen);
    };
    let expected_len = system.length(&file).unwrap_or(UNKNOWN_LEN);
    read_whole(&mut Counted::new(file), bytes, expected_len)
}
