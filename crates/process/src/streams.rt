//! Standard streams that are closed. The next file to be opened would get the descriptor of one,
//! and what is meant for the stream would go into the file.
ghost use Rattle.std.specs.Prelude.{◌≡◌, codes, is_ok, IfErr};
ghost use Rattle.process.specs.Prelude.{Does, Holds, ReplacesClosed, program_text};

use crate::system_calls::SystemCalls;
use runs::ProgramFault;

/// What takes the place of a closed stream: a folder, which can be neither read nor written, so
/// that each use of the stream is a fault.
const PLACEHOLDER: &str = "/";

/// How many standard streams there are.
const STREAMS: u32 = 3;

/// The descriptor of standard error, which is the highest of the three.
const LAST_STREAM: u32 = 2;

/// Opens the root folder under the descriptor of each standard stream that is closed, and leaves it
/// open. It is a fault that it can't be opened.
pub fn replace_closed<S: SystemCalls>(system: &mut S) -> Result<(), ProgramFault<'static>>
    ensures calls { Does (S.calls system.old) (S.calls system.new) (ReplacesClosed (is_ok result)) }
    ensures fault { IfErr result (λ fault. program_text fault ≡ codes "/: cannot open") }
{
    if !system.has_input() {
        return hold(system, STREAMS);
    }
    if !system.has_output() {
        return hold(system, STREAMS);
    }
    if !system.has_errors() {
        return hold(system, STREAMS);
    }
    Ok(())
}

/// Opens the root folder, so often at most, until its descriptor is none of a standard stream, and
/// leaves it open where it is.
fn hold<S: SystemCalls>(system: &mut S, left: u32) -> Result<(), ProgramFault<'static>>
    ensures calls { Does (S.calls system.old) (S.calls system.new) (Holds left (is_ok result)) }
    ensures fault { IfErr result (λ fault. program_text fault ≡ codes "/: cannot open") }
{
    if left == 0 {
        return Ok(());
    }
    let Some(folder) = system.root() else {
        return Err(ProgramFault::CannotOpen(PLACEHOLDER));
    };
    if system.descriptor(&folder) > LAST_STREAM {
        return Ok(());
    }
    system.leave_open(folder);
    hold(system, left - 1)
}
