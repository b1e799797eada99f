//! The entries of PO catalogues, as tools read and write them (GNU gettext manual, "The Format of
//! PO Files"), and their messages: which live entries repeat an earlier one, the list that several
//! inputs join to, and what the statistics count ("Invoking the msgfmt Program").
//!
//! The entries lie in one buffer, with a [`Row`] for each: as [`Drafts`] while they are read, and
//! then in a [`Store`], each of whose entries can stand in a catalogue. An [`EntryRef`] is one of
//! them, borrowed. The [`Fields`] of an entry are for one that is made or changed. What a text
//! means is defined here too, in the specs: which entries its items spell.
//!
//! By the numbers of the messages of a store ([`message_numbers`]) and by where its entries stand
//! ([`places_of`]), [`repeated_lines`] finds the live entries that repeat an earlier one, and
//! [`check_duplicates`] tells whether one does. Where no more than that is asked, their
//! [`message_hash`]es show that none does, if [`all_differ`]. [`Stats`] count what is translated.
//!
//! The modules of entries in reading order: `text_list`, `seen_texts`, `fields`, `texts`,
//! `charset`, `row`, `layout`, `entry_ref`, `ref_checks`, `ref_copy`, `drafts`, `store`. Those of
//! messages: `entries`, `keys`, `hashes`, `repeats`, `places`, `duplicate`, `stats`. Then `laws`.

#![tactic(auto)]

mod charset;
mod drafts;
mod duplicate;
mod entries;
mod entry_ref;
mod fields;
mod hashes;
mod keys;
pub mod laws;
mod layout;
mod places;
mod ref_checks;
mod ref_copy;
mod repeats;
mod row;
mod seen_texts;
mod stats;
mod store;
mod text_list;
mod texts;

pub use crate::charset::admits_charset;
pub use crate::drafts::Drafts;
pub use crate::duplicate::{JoinError, check_duplicates};
pub use crate::entries::{has_translation, is_live_header};
pub use crate::entry_ref::{EntryRef, FormIter};
pub use crate::fields::{Fields, Previous, copy_optional};
pub use crate::hashes::{all_differ, message_hash};
pub use crate::keys::{message_numbers, split_at_most};
pub use crate::layout::add_head;
pub use crate::places::places_of;
pub use crate::repeats::{EntryPlace, duplicate_at, first_repeat, repeated_lines};
pub use crate::row::Row;
pub use crate::seen_texts::{Seeded, SeenTexts};
pub use crate::stats::Stats;
pub use crate::store::Store;
pub use crate::text_list::{TextList, TextListIter};
pub use crate::texts::{EOT, NUL, Need, meets, optional_meets};
