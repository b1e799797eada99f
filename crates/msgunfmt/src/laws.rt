//! Laws of msgunfmt, each the contract of a function that does nothing: a call brings the law into
//! a proof.

ghost use Rattle.msgunfmt.specs.Prelude.{EntriesAreOfMessages, EmptyText, NoFaultWhereUnformatted, OneText, OneUnformatFault, TextOrFault, UnformatThenCompile};

use mo_file::laws::{mo_file_or_fault, one_first_fault, one_message_list};
use po_compile::laws::{
    joined_entries_can_stand, look_up_means_entries, messages_are_one, messages_differ,
    one_text_is_read, texts_come_back,
};
use po_reader::laws::{entries_can_stand, one_reading};
use po_writer::laws::{live_entries_stay, some_entry_is_written, written_text_reads};

/// A compiled file has a PO text, which is accepted if it is not too large: the layout of its
/// compiled list in the same byte order is the same bytes, and so is what it is compiled to.
pub fn unformat_then_compile()
    ensures { UnformatThenCompile }
{
    texts_come_back();
    messages_differ();
    joined_entries_can_stand();
    one_text_is_read();
    messages_are_one();
    look_up_means_entries();
    one_reading();
    entries_can_stand();
    written_text_reads();
    live_entries_stay();
}

/// Bytes that have a PO text have no fault, so that `unformat` returns the text, or out of memory.
pub fn no_fault_where_unformatted()
    ensures { NoFaultWhereUnformatted }
{
    one_message_list();
}

/// Bytes have one PO text at most.
#[tactic(auto, using(crate::proofs::OneOutcome::one_text))]
pub fn one_text()
    ensures { OneText }
{
    one_message_list();
}

/// Bytes have at most one fault, beside out of memory.
#[tactic(auto, using(crate::proofs::OneOutcome::fault_once))]
pub fn one_unformat_fault()
    ensures { OneUnformatFault }
{
    one_message_list();
    one_first_fault();
}

/// Only a file without messages has the empty text.
pub fn empty_text()
    ensures { EmptyText }
{
    some_entry_is_written();
}

/// All bytes have a PO text or a fault other than out of memory.
pub fn text_or_fault()
    ensures { TextOrFault }
{
    mo_file_or_fault();
}

/// Each entry has the texts of its message: the key's context and msgid, the plural and the forms,
/// each where a NUL, an EOT or an end says. So it is of the messages of any valid file.
#[tactic(auto, using(crate::proofs::MessageParts::entries_are))]
pub fn entries_are_of_messages()
    ensures { EntriesAreOfMessages }
{}
