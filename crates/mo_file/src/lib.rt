//! The binary message catalogue of GNU gettext: an MO file is built from sorted pairs, and one of
//! unknown origin is checked and then read in place ("The Format of GNU MO Files" in the GNU
//! gettext manual).
//!
//! [`build`] lays out a file, [`build_sorted`] one of borrowed strings whose keys are known to
//! rise, and [`lay_out`] the same in memory of the caller. [`MoView::open`] checks a file, and the
//! view then reads its messages, which stand in rising order of their keys. A [`Meter`] counts the
//! looks at originals, so that a search can promise how few it needs. [`original_parts`],
//! [`key_parts`] and [`split_form`] take originals and translations apart.
//!
//! To read a file: `fault`, `byte_order`, `file_header`, `strings`, `common_prefix`, `key`,
//! `meter`, `checking`, `view`, `message_parts`. To build one: `pairs`, `writing`, `building`. Then
//! `laws`.

#![tactic(auto)]

mod building;
mod byte_order;
mod checking;
mod common_prefix;
mod fault;
mod file_header;
mod key;
pub mod laws;
mod message_parts;
mod meter;
mod pairs;
mod strings;
mod view;
mod writing;

pub use building::{BuildError, build, build_sorted, file_len};
pub use byte_order::{Order, word};
pub use common_prefix::find_byte;
pub use fault::MoError;
pub use key::{compare_key, compare_originals};
pub use message_parts::{EOT, NUL, first_part, key_parts, original_parts, split_form};
pub use meter::Meter;
pub use pairs::{BorrowedPair, Pair};
pub use view::MoView;
pub use writing::lay_out;
