//! Whole commands over a system whose contents are known: what each writes, tells and answers,
//! without a premise on what its inputs hold.

#![tactic(auto)]

mod commands;
mod in_memory;
pub mod laws;
mod look_ups;
mod substitutions;
mod words;

pub use commands::{
    msgattrib_in_memory, msgcat_in_memory, msgfmt_in_memory, msgfmt_through_links_in_memory,
    msgunfmt_in_memory,
};
pub use in_memory::{Ended, Reached, run_in_memory};
pub use look_ups::{gettext_in_memory, ngettext_in_memory};
pub use substitutions::envsubst_in_memory;
pub use words::Words;
