//! Laws of the runs of the tools, each the contract of a function that does nothing: a call brings
//! the law into a proof.
ghost use Rattle.po_tools.specs.Prelude.{CompiledAreKept, KeptCompilesAlike, LongerChainAnswersAlike, MsgcatAgain, MsgcatCompilesAlike, MsgcatOfSeveral, ThereAndBack, OneLookUpRun, OneMsgattribRun, OneMsgcatRun, OneMsgfmtRun, OneMsgunfmtRun};

use mo_file::laws::{no_fault_of_mo_file, one_first_fault, one_message_list};
use mo_lookup::one_rule;
use msgattrib::laws::conditions_alone_keep;
use msgcat::laws::{
    distinct_inputs_stay, merged_entries_can_stand, messages_stand_once, one_input_stays,
};
use msgunfmt::laws::{
    no_fault_where_unformatted, one_text, one_unformat_fault, unformat_then_compile,
};
use po_compile::laws::{messages_are_one, no_fault_where_accepted};
use po_reader::laws::{entries_can_stand, one_reading};
use po_writer::laws::{written_text_again, written_text_reads};

/// Inputs and options of `msgfmt` have one run: its output, messages and status are functions of
/// them.
pub fn one_msgfmt_run()
    ensures { OneMsgfmtRun }
{
    messages_are_one();
    one_rule();
}

/// Catalogues and arguments of `gettext`, and of `ngettext`, have one run.
pub fn one_look_up_run()
    ensures { OneLookUpRun }
{
    one_message_list();
    no_fault_of_mo_file();
    one_first_fault();
    one_rule();
}

/// A file has one run of `msgunfmt`.
pub fn one_msgunfmt_run()
    ensures { OneMsgunfmtRun }
{
    no_fault_where_unformatted();
    one_text();
    one_unformat_fault();
}

/// A text and a selection have one run of `msgattrib`.
pub fn one_msgattrib_run()
    ensures { OneMsgattribRun }
{}

/// Inputs and options have one run of `msgcat`.
pub fn one_msgcat_run()
    ensures { OneMsgcatRun }
{}

/// What msgfmt wrote comes back by msgunfmt and msgfmt, byte for byte.
pub fn there_and_back()
    ensures { ThereAndBack }
{
    unformat_then_compile();
    no_fault_where_unformatted();
    one_text();
    no_fault_where_accepted();
    one_message_list();
}

/// What conditions of msgattrib keep of a text compiles as what they keep of its compiled entries;
/// with `--no-fuzzy`, `--no-obsolete` or `--translated` it compiles as the whole text does.
pub fn kept_entries_compile_alike()
    ensures kept { KeptCompilesAlike }
    ensures compiled { CompiledAreKept }
{
    conditions_alone_keep();
}

/// What msgcat wrote, msgcat alone writes again, byte for byte.
pub fn msgcat_again()
    ensures { MsgcatAgain }
{
    merged_entries_can_stand();
    messages_stand_once();
    one_input_stays();
    written_text_reads();
    written_text_again();
    entries_can_stand();
    one_reading();
}

/// What msgcat writes of one text in which no message stands twice, has the same messages for
/// msgfmt.
pub fn msgcat_compiles_alike()
    ensures { MsgcatCompilesAlike }
{
    one_input_stays();
    written_text_reads();
    one_reading();
}

/// What msgcat writes of several texts, among whose entries no message stands twice, has the same
/// messages for msgfmt as all of them have.
pub fn msgcat_of_several()
    ensures { MsgcatOfSeveral }
{
    distinct_inputs_stay();
    one_input_stays();
    written_text_reads();
    one_reading();
}

/// Where a chain of catalogues finds a translation, catalogues after its own change nothing.
#[tactic(auto, using(crate::proofs::RoundTrip::longer))]
pub fn longer_chain_answers_alike()
    ensures { LongerChainAnswersAlike }
{}
