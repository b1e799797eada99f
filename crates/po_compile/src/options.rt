//! The options of compiling, and its result.

use mo_file::Order;
use po_entry::Stats;

/// How catalogues are compiled.
#[derive(Clone, Copy, Debug)]
pub struct Options {
    /// Whether fuzzy entries are compiled too (`--use-fuzzy`).
    pub use_fuzzy: bool,
    /// The byte order of the words of the file (`--endianness`).
    pub order: Order,
}

/// A compiled catalogue.
#[derive(Debug, Drop)]
pub struct Compiled {
    /// The MO file.
    pub bytes: Vec<u8>,
    /// How many messages it has.
    pub n: u32,
    /// How many messages of the catalogues are translated, fuzzy and untranslated.
    pub stats: Stats,
}
