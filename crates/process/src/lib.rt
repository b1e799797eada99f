//! The program over a system: its arguments and its environment, what answers of the system mean,
//! how a command line is run, and how the program ends. Nothing here names the system itself: what
//! it answers comes through traits, or as values.
//!
//! The modules in reading order: `cutting`, `answers`, `system_calls`, `reading`, `value`,
//! `environment`, `source`, `opened`, `files`, `streams`, `options`, `endings`, `program`,
//! `starting`.

#![tactic(auto)]

mod answers;
mod cutting;
mod endings;
mod environment;
mod files;
mod opened;
mod options;
mod program;
mod reading;
mod source;
mod starting;
mod streams;
mod system_calls;
mod value;

pub use answers::{Found, is_for_writing, kind_of, make_fault, no_link, rights_of};
pub use endings::{give_help, refuse, report};
pub use environment::{arguments, entries, variable};
pub use files::SystemFiles;
pub use opened::Opened;
pub use program::{run, run_tool};
pub use source::Source;
pub use starting::start;
pub use streams::replace_closed;
pub use system_calls::SystemCalls;
