//! A catalogue: the entries of a PO file, in its order.

ghost use Rattle.std.specs.Prelude.{◌≡◌, IfErr, OnOk, OnErr, All, [], ◌∷◌, ◌++◌};
ghost use Rattle.po_catalog.specs.Prelude.{HasAdmittedCharset, IsCatalogueEntry, IsRefusedEntry};

use crate::entry::Entry;
use po_syntax::{PoError, PoFault};
use std::alloc::{AllocError, Global};
use std::marker::Model;

/// A catalogue: a list of entries, in which the charset of each header, live or obsolete, is
/// admitted (GNU gettext manual, "Filling in the Header Entry").
#[derive(Debug, Drop)]
pub struct Catalogue {
    entries: Vec<Entry>,
}

impl Model for Catalogue {
    ghost use Rattle.std.specs.Prelude.{List, All};
    ghost use Rattle.po_entry.specs.Prelude.{TextEntry, IsCatalogueEntry};

    ghost Value = { List TextEntry };

    ghost view = { λ c. c.entries.items };

    ghost invariant = { λ c. All IsCatalogueEntry c.entries.items };
}

impl Catalogue {
    /// The empty catalogue. Nothing is allocated.
    pub fn new(alloc: Global) -> Catalogue
        ensures { result ≡ [] }
    {
        Catalogue {
            entries: Vec::new(alloc),
        }
    }

    /// The catalogue of these entries, each of which can stand in one. Nothing is allocated.
    pub fn of(entries: Vec<Entry>) -> Catalogue
        requires { All IsCatalogueEntry entries.items }
        ensures { result ≡ entries.items }
    {
        Catalogue { entries }
    }

    /// The entries, in order.
    pub fn entries(&self) -> &[Entry]
        ensures entries { result.now ≡ self.now }
        ensures valid { All IsCatalogueEntry result.now }
    {
        &self.entries
    }

    /// Adds an entry at the end. It comes back where it is refused: with `ForeignCharset` and its
    /// line where it is a header whose charset is not admitted, or with `OutOfMemory`.
    pub fn push(&mut self, entry: Entry) -> Result<(), (Entry, PoError)>
        ensures ok { OnOk result (self.new ≡ self.old ++ entry ∷ []) }
        ensures admitted { OnOk result (HasAdmittedCharset entry) }
        ensures unchanged { OnErr result (self.new ≡ self.old) }
        ensures returned { IfErr result (λ p. p.0 ≡ entry) }
        ensures fault { IfErr result (λ p. IsRefusedEntry entry p.1) }
    {
        if !entry.has_admitted_charset() {
            let (kind, line) = (PoFault::ForeignCharset, entry.line());
            return Err((entry, PoError { kind, line }));
        }
        entry.invariant();
        match self.entries.push(entry) {
            Ok(()) => Ok(()),
            Err(failed) => Err((failed.value, AllocError.into())),
        }
    }

    /// The entries, in order, without their catalogue.
    pub fn into_entries(self) -> Vec<Entry>
        ensures entries { result.items ≡ self }
        ensures valid { All IsCatalogueEntry result.items }
    {
        self.entries
    }
}
