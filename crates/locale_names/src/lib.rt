//! The names of the locales whose catalogues are looked for ("Locale Environment Variables" and
//! "Specifying a Priority List of Languages" of the GNU gettext manual).
//!
//! [`candidate_at`] gives them one after the other, by positions that are numbers, and doesn't
//! allocate: a name is two slices of the locale's name or of LANGUAGE, one after the other.
//!
//! The modules in reading order: `name`, `language`, `position`.

#![tactic(auto)]

mod language;
mod name;
mod position;

pub use name::{Candidate, is_path_part, is_untranslated, len_before};
pub use position::{Position, candidate_at, translated_candidate_at};
