//! Rows in the order of their keys, and their statistics.

ghost use Rattle.std.specs.Prelude.{◌≡◌, ◌<◌, ◌^◌, IfErr, IfOk, OnOk, length};
ghost use Rattle.po_compile.specs.Internal.{EachApart, IsRepeatFault, AreSortedRows, counts_of};

use crate::collecting::Collected;
use crate::repeats::{check_each, check_joined};
use crate::row::{Row, compare};
use crate::rows::joined_rows;
use crate::status::Status;
use po_entry::{JoinError, Stats};
use std::alloc::Global;

/// The rows of the joined list of the inputs, in the order of their keys, where no message repeats
/// another of its input or of the joined list. Where two neighbours have one key, or an input has
/// two headers, of which the joined list has one at most, the first repeat is looked for, without
/// the rows.
///
/// Refused with the first duplicate of the first input that has one; then with the first across
/// inputs; and where an allocation failed.
pub(crate) fn sorted_rows(alloc: Global, inputs: &[Collected]) -> Result<Vec<Row<'_>>, JoinError>
    requires { length inputs.now < 2 ^ 32 }
    ensures rows { IfOk result (λ rows. AreSortedRows inputs.now rows.items) }
    ensures each { OnOk result (EachApart inputs.now) }
    ensures fault { IfErr result (IsRepeatFault inputs.now) }
{
    let mut rows = joined_rows(alloc, inputs)?;
    rows.sort_unstable_by(|a, b| compare(a, b));
    if rows.is_sorted_by(|a, b| compare(a, b).is_lt())
        && inputs.iter().all(|collected| collected.header_count() <= 1)
    {
        return Ok(rows);
    }
    drop(rows);
    check_each(alloc, inputs)?;
    check_joined(alloc, inputs)?;
    unreachable!()
}

/// How many messages are translated, fuzzy and untranslated.
pub(crate) fn statistics_of(rows: &[Row<'_>]) -> Stats
    ensures { result ≡ counts_of rows.now }
{
    let mut stats = Stats {
        translated: 0,
        fuzzy: 0,
        untranslated: 0,
    };
    for row in rows {
        let Status {
            counted,
            translated,
            fuzzy,
            ..
        } = row.status;
        stats.count(counted, translated, fuzzy);
    }
    stats
}
