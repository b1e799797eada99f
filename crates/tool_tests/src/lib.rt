//! Tests of the tools and of what they stand on, through their public calls: rows that were worked
//! out by hand, and devices that fail. They stand in a crate of their own, since the gate proves a
//! crate once more together with the tests in it.
//!
//! The modules in reading order: `arguments`, `locales`, `substitution`, `answers`,
//! `readers_and_writers`, `one_input`, `fake_system`, `whole_tools`, `whole_look_ups`,
//! `known_tools`, `in_memory`, `damaged_files`.

#![tactic(auto)]

#[cfg(test)]
mod answers;
#[cfg(test)]
mod arguments;
#[cfg(test)]
mod damaged_files;
#[cfg(test)]
mod fake_system;
#[cfg(test)]
mod in_memory;
#[cfg(test)]
mod known_tools;
#[cfg(test)]
mod locales;
#[cfg(test)]
mod one_input;
#[cfg(test)]
mod readers_and_writers;
#[cfg(test)]
mod substitution;
#[cfg(test)]
mod whole_look_ups;
#[cfg(test)]
mod whole_tools;
