//! msgfmt as a function of its inputs and options: what it writes and reports, and its exit status;
//! and as a whole, from reading its inputs to its status.
//!
//! The modules in reading order: `options`, `profile`, `fault_lines`, `plan`, `whole_run`, `laws`.

#![tactic(auto)]

mod fault_lines;
pub mod laws;
mod options;
mod plan;
mod profile;
mod whole_run;

pub use options::{MsgfmtOptions, msgfmt_options_of};
pub use plan::plan_msgfmt;
pub use profile::{CheckFault, check_collected};
pub use whole_run::{plan_msgfmt_of, run};
