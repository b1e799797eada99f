//! Catalogues of PO entries, as lists of entries each of which has buffers of its own (GNU gettext
//! manual, "The Format of PO Files" and "Invoking the msgfmt Program").
//!
//! The crates below the tools work on entries in one buffer, [`po_entry::Store`], and no tool waits
//! for this crate. A call here copies its catalogue to a store ([`store_of`]), and then does what
//! the tools do; a catalogue that is read is a copy of a store's entries ([`catalogue_of`]).
//!
//! The modules in reading order: `text_list`, `texts`, `entry`, `catalogue`, `stores`, `reading`,
//! `writing`, `joining`, `duplicate`, `stats`, `laws`.

#![tactic(auto)]

mod catalogue;
mod duplicate;
mod entry;
mod joining;
pub mod laws;
mod reading;
mod stats;
mod stores;
mod text_list;
mod texts;
mod writing;

pub use crate::catalogue::Catalogue;
pub use crate::duplicate::{duplicates, joined_duplicates};
pub use crate::entry::Entry;
pub use crate::joining::{InputEntry, is_live, is_live_header, joined};
pub use crate::reading::read;
pub use crate::stats::{has_translation, statistics};
pub use crate::stores::{catalogue_of, push_entry, store_of};
pub use crate::text_list::TextList;
pub use crate::writing::write;
pub use po_entry::{JoinError, Previous, Stats};
