//! The tools of pokit as functions of their inputs: what each writes and reports, and its exit
//! status.
//!
//! A tool has two steps. A plan (`plan_msgfmt`, ..) computes a [`Run`] of values: the output, the
//! messages and the status. [`deliver`] writes it. `run_msgfmt` and its like read one input, plan
//! and deliver.
//!
//! Each tool is in a crate of its own, over `runs`: `msgfmt`, `msgunfmt`, `msgattrib`, `msgcat`,
//! `gettext` (with ngettext) and `envsubst`. Here are all of them under one name, with [`run`],
//! which runs the tool that is asked for by what its command line gives (`tool_run`), the calls
//! that read one input (`one_input`), those on catalogues (`catalogues`) and the laws of their runs
//! (`run_laws`).

#![tactic(auto)]

mod catalogues;
mod one_input;
mod run_laws;
mod tool_run;

pub use catalogues::{Named, merge, profile_check, select};
pub use envsubst::{EntrySource, EnvsubstArguments, envsubst};
pub use gettext::{
    CatalogueFile, GettextOptions, LookUp, LookUpCommand, NgettextOptions, VariableSource,
    borrowed_catalogues, find_catalogues, plan_gettext, plan_look_up, plan_ngettext,
    read_catalogues,
};
pub use msgattrib::{Selection, plan_msgattrib, selection_of};
pub use msgcat::{MergeOptions, merge_options_of, plan_msgcat, plan_msgcat_before, plan_msgcat_of};
pub use msgfmt::laws::first_profile_fault;
pub use msgfmt::{CheckFault, MsgfmtOptions, msgfmt_options_of, plan_msgfmt, plan_msgfmt_of};
pub use msgunfmt::{UnformatError, laws as unformat_laws, plan_msgunfmt, unformat};
pub use one_input::{run_msgattrib, run_msgfmt, run_msgunfmt};
pub use po_compile::{Compiled, Options, compile, compile_all, laws};
pub use po_entry::JoinError;
pub use run_laws::{
    kept_entries_compile_alike, longer_chain_answers_alike, msgcat_again, msgcat_compiles_alike,
    msgcat_of_several, one_look_up_run, one_msgattrib_run, one_msgcat_run, one_msgfmt_run,
    one_msgunfmt_run, there_and_back,
};
pub use runs::{
    Arguments, FileKind, Input, InputFault, InputSource, Inputs, MakeFault, OutputFault,
    OutputFiles, Owner, ProgramFault, Rights, Run, STANDARD, STDIN_NAME, Tool, deliver, read_one,
    read_whole, report_fault, shown_name,
};
pub use tool_run::run;
