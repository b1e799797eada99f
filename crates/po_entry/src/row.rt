//! Where an entry lies in a buffer.

/// Where an entry lies in a buffer, how long its parts are, in bytes, and its marks. Its own texts
/// come first, as an MO file has them: the key, which is the msgid or the context, an EOT and the
/// msgid; then, each after a NUL, the plural, where there is one, and the forms. Its head follows.
#[derive(Clone, Copy, Debug)]
pub struct Row {
    /// Where its bytes begin.
    pub start: usize,
    /// How long its context is with the EOT after it; 0 where it has none.
    pub context: usize,
    /// How long its key is.
    pub key: usize,
    /// How long its own texts are.
    pub own: usize,
    /// How long its head is: comments, references, flags and previous texts.
    pub head: usize,
    /// The line of its msgid, counted from 1; 0 where it was not read from a text.
    pub line: u32,
    /// Whether it has a plural.
    pub has_plural: bool,
    /// Whether it has the flag `fuzzy`.
    pub fuzzy: bool,
    /// Whether it is obsolete.
    pub obsolete: bool,
}
