//! Tests of the MO file, the plural rule and look-up, through their public calls: files, rules and
//! answers that were worked out by hand. They stand in a crate of their own, since the gate proves
//! a crate once more together with the tests in it. What the library for C can show is tested
//! through it: the bound on comparisons, and the plural rules of languages; damaged files here too.
//!
//! The modules in reading order: `samples`, `files`, `damaged`, `rules`, `look_ups`.

#![tactic(auto)]

#[cfg(test)]
mod damaged;
#[cfg(test)]
mod files;
#[cfg(test)]
mod look_ups;
#[cfg(test)]
mod rules;
#[cfg(test)]
mod samples;
