//! gettext and ngettext as functions of their inputs: the locales and the paths of the catalogues
//! of a text domain, what stands in arguments, what each tool writes and reports, and each as a
//! whole.
//!
//! The modules in reading order: `candidates`, `environment`, `paths`, `catalogues`, `count`,
//! `escape`, `plan`, `arguments`, `whole_run`, `laws`.

#![tactic(auto)]

mod arguments;
mod candidates;
mod catalogues;
mod count;
mod environment;
mod escape;
pub mod laws;
mod paths;
mod plan;
mod whole_run;

pub use arguments::LookUpCommand;
pub use candidates::{Environment, locale_candidates};
pub use catalogues::{CatalogueFile, borrowed_catalogues, find_catalogues, read_catalogues};
pub use count::{OTHER_COUNT, count_of};
pub use environment::{OwnedEnvironment, VariableSource};
pub use escape::{Expanded, expand};
pub use paths::{DEFAULT_FOLDER, catalogue_path, catalogue_paths};
pub use plan::{
    GettextOptions, LookUp, NgettextOptions, plan_gettext, plan_look_up, plan_ngettext,
};
pub use whole_run::run_look_up;
