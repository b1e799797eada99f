//! The catalogue of a text.

ghost use Rattle.std.specs.Prelude.{IfOk, IfErr};
ghost use Rattle.po_catalog.specs.Prelude.{IsFaultOf, IsReadFault, ReadsText};

use crate::catalogue::Catalogue;
use crate::stores::catalogue_of;
use po_entry::{Drafts, Store};
use po_reader::read_into;
use po_syntax::PoError;
use std::alloc::Global;

/// Reads a PO text as a catalogue (GNU gettext manual, "The Format of PO Files").
///
/// The first of these faults is reported:
/// - `TooLarge`, without a line, above 2,147,483,647 bytes;
/// - `NotUtf8` at the first byte that is not UTF-8, then `ForbiddenByte` at the first NUL;
/// - the leftmost fault of the first line that has one, as `items` reports it;
/// - at the first item that can't follow those before it, whatever comes later: `BadPluralIndex` if
///   a `msgstr` with another index could stand there, else `MixedObsolete` if the item could with
///   or without `#~`, else `BadOrder`;
/// - `BadOrder` on the line of the last item, if the text only ends too early;
/// - entry by entry, on the line of its `msgid`: `NotUtf8` for a text of its strings, then
///   `ForbiddenByte` for an EOT in its context or msgid;
/// - `ForeignCharset` on the line of the `msgid` of the first header, live or obsolete, whose
///   charset is not admitted.
///
/// `OutOfMemory`, without a line, may come in place of any result.
pub fn read(alloc: Global, text: &[u8]) -> Result<Catalogue, PoError>
    ensures found { IfOk result (λ entries. ReadsText text.now entries) }
    ensures fault { IfErr result (IsFaultOf (IsReadFault text.now)) }
{
    let mut drafts = Drafts::new(alloc);
    let mut store = Store::new(alloc);
    read_into(alloc, text, &mut drafts, &mut store)?;
    Ok(catalogue_of(alloc, &store)?)
}
