//! The text of a catalogue.

ghost use Rattle.std.specs.Prelude.{◌≡◌, [], IfOk, IfErr, OnOk};
ghost use Rattle.po_catalog.specs.Prelude.{AreParts, out_of_memory, written_text};

use crate::catalogue::Catalogue;
use crate::stores::store_of;
use po_entry::Store;
use po_syntax::PoError;
use po_writer::TextParts;
use std::alloc::{AllocError, Global};

/// The text of a catalogue (GNU gettext manual, "The Format of PO Files"): the live entries in
/// order, then the obsolete ones in order, with an empty line between two. Refused only where an
/// allocation failed.
pub fn write(alloc: Global, catalogue: &Catalogue) -> Result<Vec<u8>, PoError>
    ensures text { IfOk result (λ text. text.items ≡ written_text catalogue.now) }
    ensures memory { IfErr result (λ e. e ≡ out_of_memory) }
{
    let store = store_of(alloc, catalogue.entries())?;
    let mut parts = TextParts::with_capacity(alloc, 0)?;
    add_entries(&mut parts, &store)?;
    Ok(parts.join()?)
}

/// Adds all entries of a store.
fn add_entries(parts: &mut TextParts, store: &Store) -> Result<(), AllocError>
    requires { AreParts [] parts.old }
    ensures { OnOk result (AreParts store.now parts.new) }
{
    for index in 0..store.len() {
        parts.add(&store.get(index))?;
    }
    Ok(())
}
