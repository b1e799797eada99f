//! envsubst by its arguments.
ghost use Rattle.std.specs.Prelude.{◌≡◌, ◌+◌, ◌^◌, ◌<◌, ◌≤◌, IfOk, IfSome, OnErr, OnOk, Err, length, map, option_map};
ghost use Rattle.std.specs.Option.{option_copied};
ghost use Rattle.envsubst.specs.Prelude.{RunsEnvsubst, WritesNames, ReadsFail, write_failures, names_in, envsubst_arguments};

use crate::arguments::EnvsubstArguments;
use crate::reference::{name_lines, names};
use crate::variable::variables_in;
use crate::whole_input::run_envsubst_in_blocks;
use runs::{ByteIn, ByteOut, ToolFault, put_all};
use std::alloc::{AllocError, Global};

/// Where the entries of an environment are read from.
pub trait EntrySource {
    ghost use Rattle.std.specs.Prelude.{ℕ, List};

    // What the entries may be.
    ghost entries: { Self → List (List ℕ) → Type 0 };

    /// All entries, each `NAME=value`, in their order.
    fn read_entries(&self, alloc: Global) -> Result<Vec<Vec<u8>>, AllocError>
        ensures { IfOk result (λ found. entries self.now (map (λ entry. entry.items) found.items)) };
}

/// Does what the arguments ask for: writes the names of the variables in a SHELL-FORMAT, and reads
/// nothing; or writes the input with its references to variables replaced, all or those to the
/// variables that a SHELL-FORMAT refers to.
pub fn envsubst<S: EntrySource, R: ByteIn, W: ByteOut>(
    alloc: Global,
    source: &S,
    reader: &mut R,
    writer: &mut W,
    given: EnvsubstArguments<'_>,
) -> Result<(), ToolFault>
    requires calls { R.calls reader.old < 2 ^ 63 }
    requires read_failures { R.failures reader.old < 2 ^ 63 }
    requires write_failures { W.failures writer.old < 2 ^ 63 }
    ensures output { RunsEnvsubst (S.entries source.now) (R.remaining reader.old) (R.remaining reader.new)
        (W.contents writer.old) (W.contents writer.new) (envsubst_arguments given.entry) result }
    ensures read_failures { ReadsFail result (R.calls reader.old) (R.calls reader.new)
        (R.failures reader.old) (R.failures reader.new) }
    ensures write_failures { W.failures writer.new ≡ W.failures writer.old + write_failures result }
    ensures calls { R.calls reader.new ≤ R.calls reader.old + 2 ^ 32 }

    // Each call but the last gave a byte at least, so that none comes after the end.
    ensures end { OnOk result (IfSome (R.remaining reader.old)
        (λ text. R.calls reader.new ≤ R.calls reader.old + length text + 1)) }
{
    let format = match given {
        EnvsubstArguments::Names(format) => return write_names(alloc, writer, format),
        EnvsubstArguments::Replaced(format) => format,
    };
    let entries = source.read_entries(alloc)?;
    let variables = variables_in(alloc, entries.as_slice())?;
    let names = names_given(alloc, format)?;
    let only = names.as_deref();
    run_envsubst_in_blocks(alloc, reader, writer, variables.as_slice(), only)
}

/// The names of the variables in a SHELL-FORMAT, where one is given.
fn names_given(alloc: Global, format: Option<&str>) -> Result<Option<Vec<&[u8]>>, ToolFault>
    ensures names { IfOk result (λ given. option_map (λ names. map (λ name. name.now) names.items) given
        ≡ option_map names_in (option_copied format.entry)) }
    ensures memory { OnErr result (result ≡ Err ToolFault.OutOfMemory) }
{
    match format {
        Some(format) => Ok(Some(names(alloc, format.as_bytes())?)),
        None => Ok(None),
    }
}

/// Writes the names of the variables in a SHELL-FORMAT.
fn write_names<W: ByteOut>(alloc: Global, writer: &mut W, format: &str) -> Result<(), ToolFault>
    requires { W.failures writer.old < 2 ^ 63 }
    ensures output { WritesNames format.now (W.contents writer.old) (W.contents writer.new) result }
    ensures failures { W.failures writer.new ≡ W.failures writer.old + write_failures result }
{
    put_all(writer, &name_lines(alloc, format.as_bytes())?)
}
