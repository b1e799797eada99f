//! Look-up in the catalogues of GNU gettext's MO files: the text that a context, a msgid and a
//! count select.
//!
//! [`Catalog::open`] checks bytes of any origin once and reads the plural rule of their header
//! entry; [`Catalog::reopen`] does so in the place of another catalogue, and [`open_into`] in
//! memory of the caller. [`Catalog::look`] then answers a query by at most floor(log2 N) + 1
//! comparisons among N keys, and evaluates each node of the plural expression at most once;
//! [`locate`] answers where the text is. A [`Chain`] asks one catalogue after the other. None of
//! them allocates: texts are slices of the file or of the query. [`find`] is the binary search over
//! any list of [`Keys`], which it only compares.
//!
//! The modules in reading order: `query`, `search`, `messages`, `forms`, `answer`, `place`,
//! `lookup`, `opening`, `catalog`, `chain`, `laws`.

#![tactic(auto)]

mod answer;
mod catalog;
mod chain;
mod forms;
pub mod laws;
mod lookup;
mod messages;
mod opening;
mod place;
mod query;
mod search;

pub use answer::Answer;
pub use catalog::Catalog;
pub use chain::{Chain, ChainAnswer};
pub use lookup::locate;
pub use messages::{Messages, ViewMessages};
pub use opening::open_into;
pub use place::{Located, Place};
pub use plural_rule::laws::{
    longer_limit, one_rule, one_tree, value_evaluates, visited_at_most_nodes,
};
pub use plural_rule::{EXPRESSION_LIMIT, Instruction, ParsedRule, Reason, Rule, Source, Steps};
pub use search::{Keys, find};
