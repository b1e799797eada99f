//! Laws of catalogues, each the contract of a function that does nothing: a call brings the law
//! into a proof. Those of the crates below are re-exported.
ghost use Rattle.std.specs.Prelude.{◌≡◌, List, All, map};
ghost use Rattle.po_catalog.specs.Prelude.{IsCatalogueEntry, IsSmall, ReadsText, TextEntry, arranged, with_line, written_text};

pub use po_entry::laws::{
    equal_but_line, later_headers_are_omitted, messages_are_numbered_in_order,
    no_duplicate_or_first, no_first_duplicate_where_none, one_first_duplicate,
    one_number_is_one_message, statistics_count_each_once,
};
pub use po_reader::laws::{
    entries_can_stand, entries_or_fault, no_fault_is_memory, no_fault_where_entries, one_fault,
    one_reading,
};
pub use po_writer::laws::{written_text_again, written_text_reads};

/// The written text of a catalogue's entries, if it is within the limit of a text, reads only as
/// the same entries but for their lines, arranged: the live ones, then the obsolete ones.
pub fn what_is_written_reads_back()
    ensures { (entries read : List TextEntry) → All IsCatalogueEntry entries → IsSmall (written_text entries)
        → ReadsText (written_text entries) read → map (with_line 0) read ≡ map (with_line 0) (arranged entries) }
{
    written_text_reads();
    one_reading();
}

/// What is read from a written text is written as that text again.
pub fn what_is_read_back_is_written_again()
    ensures { (entries read : List TextEntry) → All IsCatalogueEntry entries → IsSmall (written_text entries)
        → ReadsText (written_text entries) read → written_text read ≡ written_text entries }
{
    what_is_written_reads_back();
    written_text_again();
}
