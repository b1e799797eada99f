//! A system in memory whose contents are known: its calls, its files and its inputs, for theorems
//! about whole commands and for tests.

#![tactic(auto)]

mod files;
mod history;
pub mod laws;
mod questions;
mod source;
mod stored;
mod told;

pub use files::KnownFiles;
pub use history::{History, Note};
pub use questions::{Question, Questions};
pub use source::{KnownSource, Named};
pub use stored::Link;
pub use told::{Piece, Said, Told};
