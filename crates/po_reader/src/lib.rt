//! The reader of PO texts (GNU gettext manual, "The Format of PO Files"): it goes through the items
//! of a text, with a function for each part of an entry. What it makes of an entry's items is a
//! draft, and becomes an entry once its texts and charset are checked.
//!
//! [`read_into`] reads a text piece by piece into a store. A caller that doesn't keep all entries
//! takes them a few at a time: [`next_store`] reads pieces up to the end of an entry.
//!
//! The modules in reading order: `cursor`, `comment_texts`, `head`, `body`, `items`,
//! `reading`, `laws`.

#![tactic(auto)]

mod body;
mod comment_texts;
mod cursor;
mod head;
mod items;
pub mod laws;
mod reading;

pub use crate::reading::{PIECE, next_store, read_into};
