//! Files in memory, of one folder: links, one file, which may be there, and a new file beside it.
ghost use Rattle.std.specs.Prelude.{◌≡◌, [], Some, None};
ghost use Rattle.known_system.specs.Prelude.{Place, counted_inner, folder, links_by_path, nothing, replay, stored, telling};

use crate::history::{History, Note};
use crate::stored::{Link, Stored, is_at, is_free, link_at, unless_at, with_bytes, with_path};
use runs::{Counted, FileKind, MakeFault, OutputFault, OutputFiles, Owner, Rights};
use std::alloc::Global;

/// The rights of a file that is there.
const RIGHTS: Rights = Rights {
    mode: 0o644,
    owner: Owner { user: 0, group: 0 },
};

/// Files in memory, whose calls are known: one that may be there, and a new one, beside links that
/// stay. What they hold is what the calls left. A link has the kind of a path without a file.
#[derive(Drop)]
pub struct KnownFiles<'a> {
    alloc: Global,
    next: u32,
    links: &'a [Link<'a>],
    held: Option<Stored>,
    fresh: Option<Stored>,
    /// The calls so far.
    pub history: History,
    pub ghost tied: { replay history.calls nothing
        ≡ Some (folder (links_by_path links.now) (stored held) (stored fresh)) },
}

impl<'a> KnownFiles<'a> {
    ghost use Rattle.std.specs.Prelude.{IfSome, is_some, option_map};
    ghost use Rattle.std.specs.String.{string_bytes};
    ghost use Rattle.known_system.specs.Replay.{bytes_at};
    ghost use Rattle.known_system.specs.Source.{bytes_of};

    /// No file, and no link.
    pub fn new(alloc: Global) -> KnownFiles<'a>
        ensures { replay result.history.calls nothing ≡ Some (folder [] None None) }
    {
        KnownFiles {
            alloc,
            next: 1,
            links: &[],
            held: None,
            fresh: None,
            history: History::new().then(&Note::Numbers(0)),
        }
    }

    /// A file that may be there, at this path and with these bytes, and these links. Where a link
    /// has the path too, it is the link that is there.
    pub fn holding(
        alloc: Global,
        links: &'a [Link<'a>],
        path: String,
        bytes: Option<Vec<u8>>,
    ) -> KnownFiles<'a>
        ensures { replay result.history.calls nothing ≡ Some (folder (links_by_path links.now)
            (option_map (λ b. (string_bytes path, b.items)) bytes) None) }
    {
        let Some(bytes) = bytes else {
            let history = told(History::new(), links);
            return KnownFiles {
                alloc,
                next: 1,
                links,
                held: None,
                fresh: None,
                history,
            };
        };
        let file = Counted::new(bytes);
        let history = told(placed(&path, &file), links);
        KnownFiles {
            alloc,
            next: 1,
            links,
            held: Some(Stored {
                path,
                bytes: file.into_inner(),
            }),
            fresh: None,
            history,
        }
    }

    /// Whether a link is at a path.
    fn is_linked(&self, path: &str) -> bool
        ensures { result ≡ is_some (bytes_of (links_by_path self.now.links.now) path.now) }
    {
        link_at(self.links, path).is_some()
    }

    /// The bytes of the file at a path.
    pub fn into_bytes(self, path: &str) -> Option<Vec<u8>>
        ensures { IfSome (replay self.entry.history.calls nothing)
            (λ folder. option_map (λ v. v.items) result ≡ bytes_at path.now folder.held) }
    {
        let KnownFiles { held, .. } = self;
        let file = held?;
        if file.path.as_str() == path {
            Some(file.bytes)
        } else {
            None
        }
    }
}

/// The calls by which a file gets to this path, with these bytes.
fn placed(path: &str, file: &Counted<Vec<u8>>) -> History
    ensures { replay result.calls nothing ≡ Some (telling [] (Some (path.now, (counted_inner file.now).items))) }
{
    let history = History::new();
    let history = history.then(&Note::Makes(path, RIGHTS.mode));
    let history = history.then(&Note::Closes(file, true));
    history.then(&Note::Renames(path, path, true))
}

/// The calls, after them those that tell of the links, and one after which links stay.
fn told(before: History, links: &[Link<'_>]) -> History
    ensures { (held : Place) → replay before.calls nothing ≡ Some (telling [] held)
        → replay result.calls nothing ≡ Some (folder (links_by_path links.now) held None) }
{
    let mut history = before;
    for link in links {
        history = history.then(&Note::Link(link.path, link.to));
    }
    history.then(&Note::Numbers(0))
}

impl<'a> OutputFiles for KnownFiles<'a> {
    ghost use Rattle.std.specs.Prelude.{◌∷◌};
    ghost use Rattle.runs.specs.Prelude.{counted_failures, logged};
    ghost use Rattle.runs.specs.OutputFiles.{closes};

    type File = Vec<u8>;

    ghost log = { λ files. Some files.history.calls };

    #[tactic(auto, using(crate::proofs::Calls::replay_append))]
    fn kind(&mut self, path: &str) -> FileKind {
        let old = if is_at(&self.held, path) {
            Some(RIGHTS)
        } else {
            None
        };
        let kind = FileKind::Regular(old);
        self.history = self.history.then(&Note::Asks(path, kind));
        kind
    }

    #[tactic(auto, using(crate::proofs::Calls::replay_append))]
    fn link(&mut self, alloc: Global, path: &str) -> Result<Option<String>, OutputFault> {
        let Some(text) = link_at(self.links, path) else {
            self.history = self.history.then(&Note::NoLink(path));
            return Ok(None);
        };
        match String::from_str(alloc, text) {
            Ok(copy) => {
                self.history = self.history.then(&Note::Link(path, text));
                Ok(Some(copy))
            }
            Err(error) => {
                let why = OutputFault::from(error);
                self.history = self.history.then(&Note::FailsToReadLink(path, why));
                Err(why)
            }
        }
    }

    #[tactic(auto, using(crate::proofs::Calls::replay_append))]
    fn number(&mut self) -> u32 {
        let number = self.next;
        self.next = number.wrapping_add(1);
        self.history = self.history.then(&Note::Numbers(number));
        number
    }

    #[tactic(auto, using(crate::proofs::Calls::replay_append))]
    fn create_new(&mut self, path: &str, mode: u32) -> Result<Vec<u8>, MakeFault> {
        if self.fresh.is_some() || is_at(&self.held, path) || self.is_linked(path) {
            self.history = self
                .history
                .then(&Note::FailsToMake(path, mode, MakeFault::Exists));
            return Err(MakeFault::Exists);
        }
        let Ok(copy) = String::from_str(self.alloc, path) else {
            self.history = self
                .history
                .then(&Note::FailsToMake(path, mode, MakeFault::Failed));
            return Err(MakeFault::Failed);
        };
        self.fresh = Some(Stored {
            path: copy,
            bytes: Vec::new(self.alloc),
        });
        self.history = self.history.then(&Note::Makes(path, mode));
        Ok(Vec::new(self.alloc))
    }

    #[tactic(auto, using(crate::proofs::Calls::replay_append))]
    fn set_owner(&mut self, _file: &Vec<u8>, owner: Owner) -> Option<Owner> {
        self.history = self.history.then(&Note::SetsOwner(owner, Some(owner)));
        Some(owner)
    }

    #[tactic(auto, using(crate::proofs::Calls::replay_append))]
    fn set_mode(&mut self, _file: &Vec<u8>, mode: u32) -> bool {
        self.history = self.history.then(&Note::SetsMode(mode, true));
        true
    }

    #[tactic(auto, using(crate::proofs::Calls::replay_append))]
    fn open(&mut self, path: &str) -> Option<Vec<u8>> {
        self.history = self.history.then(&Note::FailsToOpen(path));
        None
    }

    #[tactic(auto, using(crate::proofs::Calls::replay_append))]
    fn stream(&mut self, number: u32) -> Option<Vec<u8>> {
        self.history = self.history.then(&Note::LacksStream(number));
        None
    }

    #[tactic(auto, using(crate::proofs::Calls::replay_append))]
    fn close(&mut self, file: Counted<Vec<u8>>) -> bool
        ensures { Some self.new.history.calls
            ≡ logged (closes (Some (counted_inner file).items) (counted_failures file) result ∷ [])
            (Some self.old.history.calls) }
    {
        self.history = self.history.then(&Note::Closes(&file, true));
        self.fresh = with_bytes(self.fresh.take(), file.into_inner());
        true
    }

    #[tactic(auto, using(crate::proofs::Calls::replay_append))]
    fn rename(&mut self, from: &str, to: &str) -> bool {
        if !is_at(&self.fresh, from) || !is_free(&self.held, to) || self.is_linked(to) {
            self.history = self.history.then(&Note::Renames(from, to, false));
            return false;
        }
        let Ok(path) = String::from_str(self.alloc, to) else {
            self.history = self.history.then(&Note::Renames(from, to, false));
            return false;
        };
        self.held = with_path(self.fresh.take(), path);
        self.history = self.history.then(&Note::Renames(from, to, true));
        true
    }

    #[tactic(auto, using(crate::proofs::Calls::replay_append))]
    fn remove(&mut self, path: &str) {
        self.held = unless_at(self.held.take(), path);
        self.fresh = unless_at(self.fresh.take(), path);
        self.history = self.history.then(&Note::Removes(path));
    }
}
