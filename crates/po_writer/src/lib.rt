//! Entries as PO texts that read back (GNU gettext manual, "The Format of PO Files").
//!
//! A text is written entry by entry: [`push_separated`] writes one after those before it, and
//! [`TextParts`] collects the live ones and the obsolete ones, which stand after them.
//!
//! The modules in reading order: `text`, `entry_lines`, `keyword_lines`, `parts`, `laws`.

#![tactic(auto)]

mod entry_lines;
mod keyword_lines;
pub mod laws;
mod parts;
mod text;

pub use crate::parts::TextParts;
pub use crate::text::push_separated;
