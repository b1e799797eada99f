//! Where the text of an answer is.

/// Where the text of an answer is.
#[derive(Clone, Copy, Debug, PartialEq, Eq)]
pub enum Place {
    /// In the file, from byte `start` up to byte `end`, which is a NUL.
    Translation {
        /// The offset of the text's first byte.
        start: usize,
        /// The offset of the NUL after it.
        end: usize,
    },
    /// It is the query's msgid.
    Id,
    /// It is the query's plural.
    Plural,
}

/// What a look-up answers that locates the text, and what it cost.
#[derive(Clone, Copy, Debug, PartialEq, Eq)]
pub struct Located {
    /// Where the text is.
    pub place: Place,
    /// How many keys were compared with the query's.
    pub comparisons: u32,
    /// How many nodes of the plural expression were evaluated: 0 unless there is a translation and
    /// a plural was given.
    pub steps: u32,
}
