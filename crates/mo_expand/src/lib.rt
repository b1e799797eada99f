//! System-dependent strings of MO files: strings with names as PRIu64, for which each platform has
//! texts of its own ("The Format of GNU MO Files").
//!
//! [`system_count`] says how many messages with such strings a file has, and [`expand`] completes
//! one of them by the texts of a platform, in room that the caller hands in. [`expand_file`] makes
//! a file that has none of them. The bytes may be of any origin.
//!
//! And files whose keys are out of order: [`sort_file`] makes one that has the same messages in
//! order.
//!
//! The modules in reading order: `platform_text`, `segments`, `joining`, `expanding`, `listing`,
//! `completing`, `expanded_file`; `any_order`, `sorted_file`; `laws`.

#![tactic(auto)]

mod any_order;
mod completing;
mod expanded_file;
mod expanding;
mod joining;
pub mod laws;
mod listing;
mod platform_text;
mod segments;
mod sorted_file;

pub use any_order::message_count;
pub use expanded_file::{ExpandedFile, expand_file};
pub use expanding::{expand, system_count};
pub use joining::Missing;
pub use platform_text::PlatformText;
pub use sorted_file::{SortedFile, sort_file};
