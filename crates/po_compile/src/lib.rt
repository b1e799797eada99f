//! Compiling PO catalogues to MO files (GNU gettext manual, "Invoking the msgfmt Program").
//!
//! [`compile`] compiles one text, [`compile_all`] several. Each text is read into a store, and the
//! rows of the live entries of all are sorted. [`compiled_messages`] are those that are compiled,
//! before they are sorted.
//!
//! The modules in reading order: `options`, `compiling`, `inputs`, `collecting`, `status`, `row`,
//! `rows`, `sorting`, `repeats`, `messages`; then `laws`.

#![tactic(auto)]

mod collecting;
mod compiling;
mod inputs;
pub mod laws;
mod messages;
mod options;
mod repeats;
mod row;
mod rows;
mod sorting;
mod status;

pub use crate::collecting::Collected;
pub use crate::compiling::{compile, compile_all, compile_collected};
pub use crate::inputs::collect_all;
pub use crate::messages::{CompiledMessage, compiled_messages};
pub use crate::options::{Compiled, Options};
