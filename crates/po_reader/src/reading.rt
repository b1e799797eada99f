//! The entries of a text, a few at a time or all.

ghost use Rattle.std.specs.Prelude.{◌≡◌, ◌≢◌, ◌↔◌, ◌⊎◌, ◌<◌, ◌^◌, ◌++◌, [], List, Some, true, IfOk, IfErr, IsTrue, MatchOption, OnErr, OnOk};
ghost use Rattle.po_reader.specs.Prelude.{AddsReading, EndsEntry, FaultsStay, IsFaultOf, IsLeftError, IsShorter, IsString, IsTextError, ItemsStop, LeftStops, ReadsPiece, ReadsText, TextEntry, view, views};
ghost use Rattle.po_reader.specs.Internal.Keeping.{AreDraftsOf, PiecesRead};

use crate::head::Head;
use crate::items::{check_drafts, lay_out_items};
use po_entry::{Drafts, Store};
use po_syntax::{Item, Pieces, PoError, PoFault, strings_are_utf8};
use std::alloc::Global;

/// Adds the entries of the next pieces to a store, with their comments, references and flags or
/// without: of pieces of at least this many bytes each, up to the first that ends where an entry
/// does, or of all that is left. Where the lines that are left read as entries, they read as those
/// of the pieces and then those of the rest. The drafts are room for the entries before they are
/// checked: what they held is dropped, and what they hold then is of no use but as room for those
/// of the next pieces.
///
/// The first fault of a text may be on a line after the pieces, as a line's fault comes before
/// those of entries. So where pieces don't read, all that is left is read with them, and the fault
/// is that of the whole. Then the store has the entries that it had.
pub fn next_store(
    alloc: Global,
    pieces: &mut Pieces<'_>,
    size: usize,
    with_comments: bool,
    drafts: &mut Drafts,
    store: &mut Store,
) -> Result<(), PoError>
    ensures found { OnOk result (AddsReading with_comments pieces.old pieces.new store.old store.new) }
    ensures piece { OnOk result (ReadsPiece size pieces.old pieces.new) }
    ensures faults { OnOk result (FaultsStay pieces.old pieces.new) }
    ensures fewer { OnOk result (IsShorter pieces.old pieces.new) }
    ensures unchanged { OnErr result (store.new ≡ store.old) }
    ensures fault { IfErr result (IsLeftError pieces.old) }
{
    let start = pieces.copy();
    if let None = read_pieces(alloc, pieces, size, with_comments, drafts)? {
        store.append(drafts)?;
        return Ok(());
    }
    *pieces = start;
    match read_pieces(alloc, pieces, usize::MAX, with_comments, drafts)? {
        None => store.append(drafts)?,
        Some(error) => return Err(error),
    }
    Ok(())
}

/// Whether an item is a quoted string.
fn is_string(item: &Item<'_>) -> bool
    ensures { IsTrue result ↔ IsString (view item.now) }
{
    matches!(item, Item::Str(..))
}

/// Whether there is a last item, and it is a quoted string.
fn ends_entry(items: &[Item<'_>]) -> bool
    ensures { IsTrue result ↔ EndsEntry (views items.now) }
{
    match items.last() {
        Some(item) => is_string(item),
        None => false,
    }
}

/// Puts the entries of the next pieces, up to one that ends an entry or the text, in place of the
/// drafts, with their comments, references and flags or without. Each of them can stand in a
/// catalogue. Gives the fault of the items of these pieces, if they have one.
fn read_pieces(
    alloc: Global,
    pieces: &mut Pieces<'_>,
    size: usize,
    with_comments: bool,
    drafts: &mut Drafts,
) -> Result<Option<PoError>, PoError>
    ensures found { IfOk result (λ found. (read : PiecesRead size pieces.old pieces.new) × MatchOption found
        (((pieces.new.lines ≡ []) ⊎ EndsEntry read.last) × AreDraftsOf with_comments (read.items ++ read.last) drafts.new)
        (λ e. IsFaultOf (ItemsStop (read.items ++ read.last)) e × (e.kind ≢ PoFault.OutOfMemory))) }
    ensures whole { 2 ^ 31 < size → OnOk result (pieces.new.lines ≡ []) }
    ensures fault { IfErr result (IsFaultOf (LeftStops pieces.old)) }
{
    drafts.clear();
    let mut head = Head::new(alloc);
    let mut are_utf8 = true;
    'reading: loop {
        let read = pieces.next(alloc, size)?;
        let items = read.as_slice();
        are_utf8 &= strings_are_utf8(items);
        match lay_out_items(alloc, items, with_comments, &mut head, drafts) {
            Ok(()) => {}
            Err(error) => {
                return match error.kind {
                    PoFault::OutOfMemory => Err(error),
                    _ => Ok(Some(error)),
                };
            }
        }
        if ends_entry(items) || pieces.are_over() {
            return match check_drafts(drafts, are_utf8) {
                Ok(()) => Ok(None),
                Err(error) => Ok(Some(error)),
            };
        }
    }
}

/// How many bytes of a text are read at a time, at least: few enough that the items and entries of
/// a piece stay in a processor's cache.
pub const PIECE: usize = 1_024;

/// Adds the entries of a PO text to a store, piece by piece (GNU gettext manual, "The Format of PO
/// Files"). Refused with the text's first fault, and where an allocation failed; then the entries
/// of the pieces before are added. The drafts are as for `next_store`.
pub fn read_into(
    alloc: Global,
    text: &[u8],
    drafts: &mut Drafts,
    store: &mut Store,
) -> Result<(), PoError>
    ensures found { OnOk result ((entries : List TextEntry) × ReadsText text.now entries
        × (store.new ≡ store.old ++ entries)) }
    ensures fault { IfErr result (IsTextError text.now) }
    ensures part { OnErr result ((part : List TextEntry) × (store.new ≡ store.old ++ part)) }
{
    let mut pieces = Pieces::of(text)?;
    while !pieces.are_over() {
        next_store(alloc, &mut pieces, PIECE, true, drafts, store)?;
    }
    Ok(())
}
