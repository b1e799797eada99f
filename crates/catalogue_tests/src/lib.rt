//! Tests of the crates that read, write and compile catalogues, through their public calls: texts
//! and answers that were worked out by hand, and a sweep over damaged texts. They stand in a crate
//! of their own, since the gate proves a crate once more together with the tests in it.
//!
//! `texts`, `summary` and `assertions` serve the others, which are in reading order: `items`,
//! `reading`, `built_entries`, `writing`, `catalogues`, `tools`, `compiling`, `damaged`,
//! `documented`.

#![tactic(auto)]

#[cfg(test)]
mod assertions;
#[cfg(test)]
mod built_entries;
#[cfg(test)]
mod catalogues;
#[cfg(test)]
mod compiling;
#[cfg(test)]
mod damaged;
#[cfg(test)]
mod documented;
#[cfg(test)]
mod items;
#[cfg(test)]
mod reading;
#[cfg(test)]
mod summary;
#[cfg(test)]
mod texts;
#[cfg(test)]
mod tools;
#[cfg(test)]
mod writing;
