//! The messages of an MO file before they are written, as the profile's check reads them.

ghost use Rattle.std.specs.Prelude.{◌≡◌, ◌<◌, ◌^◌, All, IfOk, OnOk, length, map};
ghost use Rattle.po_compile.specs.Prelude.{IsCatalogueEntry, OfAllInputs, compiled_inputs, compiled_message, compiled_view, joined, joined_entries};

use crate::collecting::Collected;
use crate::rows::joined_rows;
use std::alloc::{AllocError, Global};

/// The message that an entry of one of several inputs is compiled to.
#[derive(Clone, Copy)]
pub struct CompiledMessage<'b> {
    /// The input of the entry, counted from 0.
    pub input: u32,
    /// The line of its msgid.
    pub line: u32,
    /// Its original in the MO file.
    pub original: &'b [u8],
    /// Its translation in the MO file.
    pub translation: &'b [u8],
}

/// The messages that inputs are compiled to, in the order of their joined list.
pub fn compiled_messages<'b>(
    alloc: Global,
    inputs: &'b [Collected],
) -> Result<Vec<CompiledMessage<'b>>, AllocError>
    requires { length inputs.now < 2 ^ 32 }
    ensures messages { IfOk result (λ messages. OfAllInputs inputs.now (λ use_fuzzy catalogues.
        map compiled_view messages.items ≡ map compiled_message (compiled_inputs use_fuzzy (joined catalogues)))) }
    ensures valid { OnOk result (OfAllInputs inputs.now (λ _ catalogues. All IsCatalogueEntry (joined_entries catalogues))) }
{
    let rows = joined_rows(alloc, inputs)?;
    let mut messages = Vec::with_capacity(alloc, rows.len())?;
    for row in &rows {
        if row.status.compiled {
            messages.push(CompiledMessage {
                input: row.input,
                line: row.live.line(),
                original: row.live.original(),
                translation: row.live.translation(),
            })?;
        }
    }
    Ok(messages)
}
