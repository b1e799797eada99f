//! The answer to a query.

/// What a look-up answers: a slice of the catalogue's bytes or of the query, and what it cost.
#[derive(Clone, Copy, Debug, PartialEq, Eq)]
pub struct Answer<'q> {
    /// The translation's form, or where there is no translation the msgid or the plural that was
    /// asked for.
    pub text: &'q [u8],
    /// Whether the catalogue has a translation.
    pub found: bool,
    /// How many keys were compared with the query's.
    pub comparisons: u32,
    /// How many nodes of the plural expression were evaluated: 0 unless there is a translation and
    /// a plural was given.
    pub steps: u32,
}
