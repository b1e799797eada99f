//! The command line of pokit, as `clap` takes it: the tools and their options, the texts of help,
//! and the texts of usage faults.
//!
//! The modules in reading order: `commands`, `help`, `tips`, `usage`, `laws`.

#![tactic(auto)]

mod commands;
mod help;
pub mod laws;
mod tips;
mod usage;

pub use commands::program;
pub use runs::Tool;
pub use usage::{reworded, spelled_out};
