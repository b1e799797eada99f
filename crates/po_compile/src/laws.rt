//! Laws of compiling, each the contract of a function that does nothing: a call brings the law into
//! a proof.

ghost use Rattle.po_compile.specs.Prelude.{CompiledListIsKept, CompiledCanBeKeys, JoinedEntriesCanStand, LayoutsAreLimited, MessagesDiffer, MessagesHaveParts, OneMoreChangesNoOther, OneTextIsRead, TextsComeBack, AcceptedOrFault, CataloguesAreOne, LookUpMeansEntries, MessagesAreOne, MessagesMeanEntries, NoFaultWhereAccepted, NoFaultWhereDistinct, OneCompileFault, OneTextFault};

use mo_file::laws::layout_is_mo_file;
use po_reader::laws::entries_can_stand;

/// Of a catalogue's entries the live ones that have a translation are compiled, but for fuzzy ones
/// if these aren't asked for. A live translated header is compiled whatever its flags.
#[tactic(auto, using(crate::proofs::CompiledMessages::compiled_list_is_kept))]
pub fn compiled_list_is_kept()
    ensures { CompiledListIsKept }
{}

/// The messages that entries are compiled to answer every query as the entries do.
#[tactic(auto, using(crate::proofs::Meaning::mean_entries))]
pub fn messages_mean_entries()
    ensures { MessagesMeanEntries }
{}

/// Entries are compiled to one list of messages only.
pub fn messages_are_one()
    ensures { MessagesAreOne }
{}

/// For texts that are accepted the layout of their messages is a valid file, and what is looked up
/// in it is what their entries mean.
pub fn look_up_means_entries()
    ensures { LookUpMeansEntries }
{
    entries_can_stand();
    layout_is_mo_file();
    messages_mean_entries();
    messages_are_one();
}

/// Texts that are accepted have no fault, so that compiling them returns the file, or out of
/// memory.
pub fn no_fault_where_accepted()
    ensures { NoFaultWhereAccepted }
{}

/// Every list of texts is accepted or has a fault.
pub fn accepted_or_fault()
    ensures { AcceptedOrFault }
{}

/// A list of texts has at most one fault: one kind, of one input, on one line.
pub fn one_compile_fault()
    ensures { OneCompileFault }
{}

/// A text has at most one fault: one kind, on one line.
pub fn one_text_fault()
    ensures { OneTextFault }
{}

/// A text that reads as entries without a duplicate has no fault.
pub fn no_fault_where_distinct()
    ensures { NoFaultWhereDistinct }
{}

/// Texts are read as one list of catalogues only.
pub fn catalogues_are_one()
    ensures { CataloguesAreOne }
{}

/// The message of an entry has the entry's key, its plural and its forms.
pub fn messages_have_parts()
    ensures { MessagesHaveParts }
{}

/// From the message that an entry is compiled to its context, msgid, plural and forms are taken.
pub fn texts_come_back()
    ensures { TextsComeBack }
{
    messages_have_parts();
}

/// Entries whose messages stand in rising order of keys are of different messages.
pub fn messages_differ()
    ensures { MessagesDiffer }
{}

/// The entries of texts that are read can stand in a catalogue.
#[tactic(auto, using(crate::proofs::CollectedInputs::read_valid))]
pub fn joined_entries_can_stand()
    ensures { JoinedEntriesCanStand }
{
    entries_can_stand();
}

/// A text without a duplicate is read as its entries, where it is the only one.
#[tactic(auto, using(crate::proofs::CollectedInputs::only_read, crate::proofs::CollectedInputs::joined_one))]
pub fn one_text_is_read()
    ensures { OneTextIsRead }
{}

/// Each entry that is compiled can be asked for.
#[tactic(auto, using(crate::proofs::FileLimit::compiled_can_be_keys))]
pub fn compiled_can_be_keys()
    ensures { CompiledCanBeKeys }
{
    joined_entries_can_stand();
}

/// Texts that are read are accepted where the layout of their messages has 4,294,967,295 bytes at
/// most. Where it has more, their fault is `TooLarge`, of no line, under the name of the first
/// input.
pub fn layouts_are_limited()
    ensures { LayoutsAreLimited }
{}

/// One entry more changes no answer to a query for another message, under one plural rule.
pub fn one_more_changes_no_other()
    ensures { OneMoreChangesNoOther }
{
    messages_mean_entries();
}
