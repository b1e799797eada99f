//! msgcat as a function of its inputs and options: what it writes and reports, and its exit status;
//! and as a whole, from reading its inputs to its status (GNU gettext manual, "Invoking the msgcat
//! Program").
//!
//! [`MergeInputs`] have the entries of all inputs in one store. For each message,
//! [`MergeInputs::merge_message`] lists its definitions and, if [`MergeOptions`] ask for as many,
//! makes one entry of them.
//!
//! The modules of merging in reading order: `input`, `definition`, `joined_translations`,
//! `comments`, `merging`, `merge_inputs`, `laws`. Those of the tool: `options`, `inputs`,
//! `merged_text`, `plan`, `whole_run`.

#![tactic(auto)]

mod comments;
mod definition;
mod input;
mod inputs;
mod joined_translations;
pub mod laws;
mod merge_inputs;
mod merged_text;
mod merging;
mod options;
mod plan;
mod whole_run;

pub use crate::definition::NamedEntry;
pub use crate::input::{MergeOptions, ReadInput};
pub use crate::merge_inputs::MergeInputs;
pub use options::merge_options_of;
pub use plan::{plan_msgcat, plan_msgcat_before};
pub use whole_run::{plan_msgcat_of, run};
