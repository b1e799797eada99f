//! The items of a PO text, which are its comments, keywords and strings, and the quoted form of a
//! text (GNU gettext manual, "The Format of PO Files").
//!
//! [`items`] reads all items of a text, and [`Pieces`] those of one piece after another. [`quote`]
//! writes a text as one string that reads back. A refused text has a [`PoError`]: the first fault,
//! and its line. [`is_blank`] and [`skip_blanks`] say what a blank is.
//!
//! The modules in reading order: `item`, `fault`, `token`, `escape`, `quoted_string`, `line`,
//! `pieces`, `quoting`, `laws`.

#![tactic(auto)]

mod escape;
mod fault;
mod item;
pub mod laws;
mod line;
mod pieces;
mod quoted_string;
mod quoting;
mod token;

pub use crate::fault::{PoError, PoFault};
pub use crate::item::{CommentKind, Item, Keyword, Marks, SpeltBytes, strings_are_utf8};
pub use crate::pieces::{Pieces, items};
pub use crate::quoting::quote;
pub use crate::token::{is_blank, skip_blanks};
