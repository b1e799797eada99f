//! msgattrib as a function of its input and selection: what it writes and reports, and its exit
//! status; and as a whole, from reading its input to its status (GNU gettext manual, "Invoking the
//! msgattrib Program").
//!
//! A [`Selection`] says which entries are kept and how they are changed, by their [`Attributes`].
//! Of a store each entry by itself is kept or not, and changed there; or its fields are changed.
//!
//! The modules in reading order: `attributes`, `selection`, `laws`; then `options`,
//! `selected_text`, `plan`, `whole_run`.

#![tactic(auto)]

mod attributes;
pub mod laws;
mod options;
mod plan;
mod selected_text;
mod selection;
mod whole_run;

pub use crate::attributes::Attributes;
pub use crate::selection::Selection;
pub use options::selection_of;
pub use plan::plan_msgattrib;
pub use whole_run::run;
