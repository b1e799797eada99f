//! msgunfmt as a function of its input: what it writes and reports, and its exit status; and as a
//! whole, from reading its input to its status (GNU gettext manual, "Invoking the msgunfmt
//! Program").
//!
//! [`unformat`] makes an entry of each message and appends it to the text, so that no catalogue is
//! kept. What was compiled comes back from the text as the same bytes.
//!
//! The modules in reading order: `fault`, `unformatting`, `laws`; then `plan`, `whole_run`.

#![tactic(auto)]

mod fault;
pub mod laws;
mod plan;
mod unformatting;
mod whole_run;

pub use crate::fault::UnformatError;
pub use crate::unformatting::unformat;
pub use plan::plan_msgunfmt;
pub use whole_run::run;
