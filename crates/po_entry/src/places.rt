//! Where the entries of a store stand.

ghost use Rattle.std.specs.Prelude.{◌≡◌, All, IfOk, OnOk};
ghost use Rattle.po_entry.specs.Prelude.{IsCatalogueEntry, is_live, are_placed};

use crate::repeats::EntryPlace;
use crate::store::Store;
use std::alloc::{AllocError, Global};

/// Where the entries of a store stand, and which of them are live. Refused only where an allocation
/// failed.
pub fn places_of(alloc: Global, store: &Store) -> Result<Vec<EntryPlace>, AllocError>
    ensures places { IfOk result (λ places. places.items ≡ are_placed is_live store.now) }
    ensures valid { OnOk result (All IsCatalogueEntry store.now) }
{
    let mut places = Vec::with_capacity(alloc, store.len())?;
    for index in 0..store.len() {
        let entry = store.get(index);
        places.push(EntryPlace {
            line: entry.line(),
            is_live: !entry.obsolete(),
        })?;
    }
    Ok(places)
}
