//! The inputs and options of a merge.

ghost use Rattle.std.specs.Prelude.{◌≡◌, length};
ghost use Rattle.msgcat.specs.Prelude.{IsReadInput, Lacks, Named};

/// An input whose entries lie in a store, after those of the inputs before it.
#[derive(Clone, Copy)]
pub struct ReadInput<'a> {
    /// Its name, under which its forms stand where different translations are joined.
    pub name: &'a str,
    /// How many entries the inputs before it have.
    pub start: usize,
    /// How many entries it has.
    pub count: usize,
}

impl<'a> ReadInput<'a> {
    /// The input of this name, with so many entries after those of others.
    pub fn of(name: &'a str, start: usize, count: usize) -> ReadInput<'a>
        ensures known { (read : Named) → name.now ≡ read.name → Lacks 0 name.now → count ≡ length read.entries
            → IsReadInput read result }
        ensures start { result.start ≡ start }
    {
        ReadInput { name, start, count }
    }
}

/// Which messages are kept, and how their definitions are merged. A definition of a message is a
/// live entry, or, where no live entry has the message, an obsolete one. The message of a header is
/// kept, however many definitions it has.
#[derive(Clone, Copy, Debug)]
pub struct MergeOptions {
    /// `--more-than`: messages with more definitions than this.
    pub more_than: u32,
    /// `--less-than`: messages with fewer definitions than this, where it is given.
    pub less_than: Option<u32>,
    /// `--unique`: messages with one definition.
    pub unique: bool,
    /// `--use-first`: the first translation is taken, and different ones aren't joined.
    pub use_first: bool,
}
