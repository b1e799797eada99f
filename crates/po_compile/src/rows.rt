//! The rows of all inputs, and the pairs that they are written as.

ghost use Rattle.std.specs.Prelude.{◌≡◌, ◌+◌, ◌<◌, ◌^◌, ◌++◌, ◌∷◌, [], IfOk, OnOk, filter, length, map};
ghost use Rattle.po_compile.specs.Prelude.{live_message, messages_of_borrowed};
ghost use Rattle.po_compile.specs.Internal.{all_messages, compiled_of, in_input_message, is_joined, row_view};

use crate::collecting::Collected;
use crate::row::{PREFIX_LEN, Row, prefix_of};
use crate::status::status_of;
use mo_file::BorrowedPair;
use po_entry::EntryRef;
use std::alloc::{AllocError, Global};

/// The row of a live entry of this input.
fn row_of(input: u32, live: EntryRef<'_>, use_fuzzy: bool) -> Row<'_>
    ensures { row_view result ≡ in_input_message input (live_message use_fuzzy live.entry) }
{
    let status = status_of(&live, use_fuzzy);
    let key = live.key();
    let (_, after_prefix) = key.split_at(PREFIX_LEN.min(key.len()));
    Row {
        prefix: prefix_of(key),
        second_prefix: prefix_of(after_prefix),
        live,
        input,
        status,
    }
}

/// Adds a row, unless it is that of a header where an earlier input has one.
fn add_row<'b>(rows: &mut Vec<Row<'b>>, row: Row<'b>, headed: bool) -> Result<(), AllocError>
    ensures { OnOk result (map row_view rows.new.items
        ≡ map row_view rows.old.items ++ filter (λ m. is_joined headed m.message) (row_view row.entry ∷ [])) }
{
    if !headed || !row.live.is_header() {
        rows.push(row)?;
    }
    Ok(())
}

/// Adds the rows of an input, without those of headers where an earlier input has one.
fn add_rows<'b>(
    rows: &mut Vec<Row<'b>>,
    input: u32,
    collected: &'b Collected,
    headed: bool,
) -> Result<(), AllocError>
    ensures { OnOk result (map row_view rows.new.items
        ≡ map row_view rows.old.items ++ map (in_input_message input) (filter (is_joined headed) collected.now)) }
{
    for index in 0..collected.live.len() {
        let row = row_of(input, collected.live.get(index), collected.use_fuzzy);
        add_row(rows, row, headed)?;
    }
    Ok(())
}

/// How many rows the inputs have at most: a capacity.
pub(crate) fn room_for(inputs: &[Collected]) -> usize {
    inputs.iter().fold(0, |sum: usize, input| sum.saturating_add(input.live.len()))
}

/// The rows of the joined list of the inputs, in its order.
pub(crate) fn joined_rows<'b>(
    alloc: Global,
    inputs: &'b [Collected],
) -> Result<Vec<Row<'b>>, AllocError>
    requires { length inputs.now < 2 ^ 32 }
    ensures { IfOk result (λ rows. map row_view rows.items ≡ all_messages inputs.now) }
{
    let mut rows = Vec::with_capacity(alloc, room_for(inputs))?;
    let mut headed = false;
    for (input, collected) in inputs.iter().enumerate() {
        add_rows(&mut rows, input as u32, collected, headed)?;
        headed = headed || collected.header_count() > 0;
    }
    Ok(rows)
}

/// The messages that are compiled, in the order of the rows.
#[tactic(auto, using(crate::proofs::CompiledMessages::one_kept, crate::proofs::CompiledMessages::one_omitted))]
pub(crate) fn compiled_pairs<'b>(
    alloc: Global,
    rows: &[Row<'b>],
) -> Result<Vec<BorrowedPair<'b>>, AllocError>
    ensures { IfOk result (λ pairs. messages_of_borrowed pairs.items ≡ compiled_of (map row_view rows.now)) }
{
    let mut pairs = Vec::with_capacity(alloc, rows.len())?;
    for row in rows {
        if row.status.compiled {
            pairs.push(BorrowedPair {
                original: row.live.original(),
                translation: row.live.translation(),
            })?;
        }
    }
    Ok(pairs)
}
