//! Laws of reading, each the contract of a function that does nothing: a call brings the law into a
//! proof.
ghost use Rattle.std.specs.Prelude.{◌≡◌, ◌≢◌, ◌⊎◌, ◌↔◌, ℕ, List, All};
ghost use Rattle.po_syntax.specs.declared.fault.PoFault.{PoFault};
ghost use Rattle.po_reader.specs.Prelude.{IsCatalogueEntry, IsReadFault, ReadsText, SpellsEntries, TextEntry, TextItem};
ghost use Rattle.po_reader.specs.Internal.Reads.{Reads};

/// Going through items from the left, the reader finds these entries exactly if the items spell
/// them: the items of each entry in turn, and then comments that belong to no entry.
pub fn entries_are_spelt()
    ensures { (items : List TextItem) (entries : List TextEntry)
        → Reads items entries ↔ SpellsEntries items entries }
{}

/// A text reads as at most one list of entries.
pub fn one_reading()
    ensures { (text : List ℕ) (entries others : List TextEntry)
        → ReadsText text entries → ReadsText text others → entries ≡ others }
{}

/// No text both reads as entries and has a fault.
pub fn no_fault_where_entries()
    ensures { (text : List ℕ) (entries : List TextEntry) (fault : PoFault) (line : ℕ)
        → ReadsText text entries → IsReadFault text fault line → ⊥ }
{}

/// A text has at most one first fault, on one line.
#[tactic(auto, using(crate::proofs::OneOutcome::text_fault_once))]
pub fn one_fault()
    ensures { (text : List ℕ) (fault other : PoFault) (line index : ℕ)
        → IsReadFault text fault line → IsReadFault text other index
        → (fault ≡ other) × (line ≡ index) }
{}

/// The entries that a text reads as can stand in a catalogue.
pub fn entries_can_stand()
    ensures { (text : List ℕ) (entries : List TextEntry) → ReadsText text entries → All IsCatalogueEntry entries }
{}

/// Every text either reads as entries or has a first fault.
pub fn entries_or_fault()
    ensures { (text : List ℕ)
        → ((entries : List TextEntry) × ReadsText text entries)
        ⊎ ((fault : PoFault) × (line : ℕ) × IsReadFault text fault line) }
{}

/// No fault of a text is out of memory.
#[tactic(auto, using(crate::proofs::OneOutcome::read_reported))]
pub fn no_fault_is_memory()
    ensures { (text : List ℕ) (fault : PoFault) (line : ℕ)
        → IsReadFault text fault line → fault ≢ PoFault.OutOfMemory }
{}
