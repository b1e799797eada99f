//! Laws of the written text, each the contract of a function that does nothing: a call brings the
//! law into a proof.
ghost use Rattle.std.specs.Prelude.{◌≡◌, ◌++◌, ◌∷◌, ℕ, List, [], All, false, map};
ghost use Rattle.std.specs.List.{concat};
ghost use Rattle.po_syntax.specs.Prelude.{IsSmall};
ghost use Rattle.po_writer.specs.Prelude.{EachEndsInItsOnlyFeed, IsArranged, IsCatalogueEntry, IsEntry, ReadsText, StandInOrder, TextEntry, TextsAreWritten, WritesEntry, arranged, entry_lines, in_order, with_entry, with_line, written_text};
ghost use Rattle.po_syntax.specs.Facts.LinesWithEnds.{lines_with_ends};

/// The lines of a text, joined, are the text. Each but the last ends in its only LF; the last may
/// have none, and then it isn't empty.
#[tactic(auto, using(crate::proofs::WrittenLines::lines_joined, crate::proofs::WrittenLines::lines_ended))]
pub fn lines_are_cut_after_feeds()
    ensures joined { (text : List ℕ) → concat (lines_with_ends text) ≡ text }
    ensures ended { (text : List ℕ) → EachEndsInItsOnlyFeed (lines_with_ends text) }
{}

/// After its keyword a text is written as one string, if no LF is before its last byte; else as an
/// empty string, and then line by line.
#[tactic(auto, using(crate::proofs::WrittenLines::texts_are_written))]
pub fn texts_are_written()
    ensures { TextsAreWritten }
{}

/// An entry is written line by line: each comment after `#` and each extracted one after `#.`; in
/// one line the references, with one space between two; in one the flags, `fuzzy` first; the
/// previous texts; and the context, the msgid, the plural and the forms, each after its keyword.
#[tactic(auto, using(crate::proofs::WrittenLists::entry_written))]
pub fn entries_are_written()
    ensures { (entry : TextEntry) → IsEntry entry → WritesEntry entry (entry_lines entry) }
{}

/// The entries are written live ones first, then obsolete ones, each kind in its order, with an
/// empty line between two.
#[tactic(auto, using(crate::proofs::WrittenLists::entries_arranged, crate::proofs::WrittenLists::entries_stand))]
pub fn live_before_obsolete()
    ensures arranged { (entries : List TextEntry) → IsArranged entries (arranged entries) }
    ensures in_order { (entries : List TextEntry) → StandInOrder entries (in_order entries) }
{}

/// The written text of a catalogue's entries, if it is within the limit of a text, reads as the
/// same entries but for their lines, arranged: the live ones, then the obsolete ones.
#[tactic(auto, using(crate::proofs::WrittenTexts::written_reads))]
pub fn written_text_reads()
    ensures { (entries : List TextEntry) → All IsCatalogueEntry entries → IsSmall (written_text entries)
        → (read : List TextEntry) × ReadsText (written_text entries) read
        × (map (with_line 0) read ≡ map (with_line 0) (arranged entries)) }
{}

/// If entries are those of a list, arranged, but for their lines, they are written as the list is.
/// So are the entries that are read from its written text.
#[tactic(auto, using(crate::proofs::WrittenLists::rewritten))]
pub fn written_text_again()
    ensures { (entries read : List TextEntry) → map (with_line 0) read ≡ map (with_line 0) (arranged entries)
        → written_text read ≡ written_text entries }
{}

/// A live entry after live ones is written after an empty line, or where the text begins.
#[tactic(auto, using(crate::proofs::WrittenLists::one_more))]
pub fn live_entry_is_added()
    ensures { (entries : List TextEntry) (entry : TextEntry) → All (λ e. e.obsolete ≡ false) entries
        → entry.obsolete ≡ false → with_entry (written_text entries) entry ≡ written_text (entries ++ entry ∷ []) }
{}

/// If all entries are live, they are arranged as they stand.
#[tactic(auto, using(crate::proofs::WrittenLists::live_stay))]
pub fn live_entries_stay()
    ensures { (entries : List TextEntry) → All (λ e. e.obsolete ≡ false) entries → arranged entries ≡ entries }
{}

/// Only a list without entries is written as the empty text.
#[tactic(auto, using(crate::proofs::WrittenLists::none_written))]
pub fn some_entry_is_written()
    ensures { (entries : List TextEntry) → written_text entries ≡ [] → entries ≡ [] }
{}
