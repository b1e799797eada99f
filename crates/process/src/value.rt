//! Values of a process, each copied into a room that may be too short for it.
ghost use Rattle.std.specs.Prelude.{IfOk, option_map};
ghost use Rattle.process.specs.Internal.{may_be};

use crate::system_calls::SystemCalls;
use std::alloc::{AllocError, Global};
use std::env::FillError;

/// How many bytes there is room for when a value is first asked for.
const FIRST_CAPACITY: usize = 256;

/// A value that a process may have.
#[derive(Clone, Copy)]
pub(crate) enum Value<'a> {
    /// The argument of this index.
    Argument(usize),
    /// The variable of this name.
    Variable(&'a str),
    /// The entry of its environment of this index.
    Entry(usize),
}

/// The value, or `None` where there is none. It is asked for with twice the room each time until it
/// fits.
pub(crate) fn ask<S: SystemCalls>(
    alloc: Global,
    system: &S,
    value: Value<'_>,
) -> Result<Option<Vec<u8>>, AllocError>
    ensures { IfOk result (λ answer. may_be (S.argument system.now) (S.value system.now) (S.entry system.now) value.entry
        (option_map (λ v. v.items) answer)) }
{
    let mut capacity = FIRST_CAPACITY;
    loop {
        let mut room = vec![in alloc; 0; capacity]?;
        let filled = match value {
            Value::Argument(index) => system.argument(index, room.as_mut_slice()),
            Value::Variable(name) => system.variable(name, room.as_mut_slice()),
            Value::Entry(index) => system.entry(index, room.as_mut_slice()),
        };
        match filled {
            Ok(length) => {
                room.truncate(length);
                return Ok(Some(room));
            }
            Err(FillError::NotPresent) => return Ok(None),
            Err(FillError::TooLong) => capacity = capacity.saturating_mul(2),
        }
    }
}
