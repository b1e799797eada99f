//! The calls that a system was asked. They exist only in proofs, and take no memory.
ghost use Rattle.std.specs.Prelude.{◌≡◌, List, [], ◌∷◌, ◌++◌};
ghost use base.Fml.{ftrue};
ghost use Rattle.known_system.specs.Prelude.{FileCall, calls_code};

use runs::{Counted, FileKind, MakeFault, OutputFault, Owner};
use std::marker::Model;

/// The calls so far, with their answers: data of proofs alone.
#[derive(Drop)]
pub struct History {
    pub ghost calls: { List FileCall } by { calls_code },
}

impl Model for History {
    ghost also_owns = { λ _. ftrue };
}

/// A call with its answer.
#[derive(Clone, Copy, Drop)]
pub enum Note<'a> {
    /// What the path leads to.
    Asks(&'a str, FileKind),
    /// A link is at the path, with this text.
    Link(&'a str, &'a str),
    /// No link is at the path.
    NoLink(&'a str),
    /// The link at the path isn't read.
    FailsToReadLink(&'a str, OutputFault),
    /// A number for a name.
    Numbers(u32),
    /// An empty file is made, with this mode.
    Makes(&'a str, u32),
    /// None is made.
    FailsToMake(&'a str, u32, MakeFault),
    /// What is open is to get this owner, and whose it is then.
    SetsOwner(Owner, Option<Owner>),
    /// It is to get this mode, and whether it did.
    SetsMode(u32, bool),
    /// The file at the path isn't opened.
    FailsToOpen(&'a str),
    /// There is no such stream.
    LacksStream(u32),
    /// What is open is closed, and whether all was taken.
    Closes(&'a Counted<Vec<u8>>, bool),
    /// One path is given another, and whether it was.
    Renames(&'a str, &'a str, bool),
    /// A file is removed.
    Removes(&'a str),
}

impl History {
    ghost use Rattle.known_system.specs.Noted.{noted};

    /// No call yet.
    pub fn new() -> History
        ensures { result.calls ≡ [] }
    {
        History {}
    }

    /// The calls, and one more.
    #[inline(always)]
    pub fn then(&self, _note: &Note<'_>) -> History
        ensures { result.calls ≡ self.now.calls ++ noted _note.now ∷ [] }
    {
        History {}
    }
}
