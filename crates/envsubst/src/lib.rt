//! envsubst: the substitution of variables, in pieces and in a whole input, and what the tool does
//! by its arguments.
//!
//! The modules in reading order: `variable`, `reference`, `replacements`, `holding`,
//! `substituter`, `whole_input`, `arguments`, `by_arguments`, `laws`.

#![tactic(auto)]

mod arguments;
mod by_arguments;
mod holding;
pub mod laws;
mod reference;
mod replacements;
mod substituter;
mod variable;
mod whole_input;

pub use arguments::EnvsubstArguments;
pub use by_arguments::{EntrySource, envsubst};
pub use reference::{LONGEST_NAME, name_lines, names};
pub use substituter::Substituter;
pub use variable::{name_and_value, variables_in};
pub use whole_input::{MOST_READS, run_envsubst, run_envsubst_in_blocks};
