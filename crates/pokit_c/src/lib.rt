//! The look-up of messages for C, and for every language that calls C: a static library over
//! mo_lookup.
//!
//! A catalogue lies in memory of the caller. [`pokit_catalog_open`](opening::pokit_catalog_open)
//! checks the bytes of an MO file once and reads the plural rule of their header entry;
//! [`pokit_catalog_look`](looking::pokit_catalog_look) answers a query.
//! [`pokit_candidate`](candidate::pokit_candidate) names the locales whose catalogues are looked
//! for. [`pokit_system_count`](system_message::pokit_system_count) and
//! [`pokit_system_message`](system_message::pokit_system_message) complete system-dependent
//! messages, and [`pokit_expanded_file`](expanded_file::pokit_expanded_file) makes a file that has
//! none. [`pokit_sorted_file`](sorted_file::pokit_sorted_file) makes a file in order of one whose
//! keys are out of order. None of them allocates, and there is no state besides the arguments. C
//! calls them by the inline functions of include/pokit.h.
//!
//! The modules in reading order: `catalog`, `fault`, `opening`, `query`, `looking`, `candidate`,
//! `system_message`, `expanded_file`, `sorted_file`.

#![tactic(auto)]

mod candidate;
mod catalog;
mod expanded_file;
mod fault;
mod looking;
mod opening;
mod query;
mod sorted_file;
mod system_message;
