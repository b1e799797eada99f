//! A system in memory: inputs that fail at a call, a file, and standard streams that fail at a
//! call.
ghost use Rattle.std.specs.Prelude.{◌≡◌, ◌∷◌, [], None};
ghost use Rattle.runs.specs.Prelude.{counted_failures, logged};
ghost use Rattle.runs.specs.OutputFiles.{closes};

use po_shell::{Counted, Failing};
use po_tools::{
    Arguments, EntrySource, FileKind, InputFault, InputSource, MakeFault, OutputFault, OutputFiles,
    Owner, VariableSource, read_whole,
};
use std::alloc::{AllocError, Global};

/// The length of an input where it isn't known.
const UNKNOWN_LEN: u64 = 0;

/// What a command line gives.
#[derive(Drop)]
pub(crate) struct Line {
    /// The arguments FILE.
    pub(crate) files: &'static [&'static str],
    /// The other arguments.
    pub(crate) others: &'static [&'static str],
    /// The text of `-o`.
    pub(crate) output: Option<&'static str>,
    /// The options that are given.
    pub(crate) flags: &'static [&'static str],
}

impl Arguments for Line {
    ghost flag = { λ _ _ _. Unit {0} };

    ghost text = { λ _ _ _. Unit {0} };

    ghost texts = { λ _ _ _. Unit {0} };

    ghost number = { λ _ _ _. Unit {0} };

    fn is_given(&self, name: &str) -> bool {
        self.flags.iter().any(|flag| *flag == name)
    }

    fn text_of(&self, name: &str) -> Option<&str> {
        match name {
            "output-file" => self.output,
            "FILE" => self.files.first().copied(),
            _ => None,
        }
    }

    fn texts_of<'w>(&'w self, name: &str) -> &'w [&'w str] {
        if name == "FILE" {
            self.files
        } else {
            self.others
        }
    }

    fn number_of(&self, _name: &str) -> Option<u32> {
        None
    }
}

/// Inputs of one text, each of which fails at a call, and an environment: the locale, and one
/// variable `A`.
#[derive(Drop)]
pub(crate) struct FakeSource {
    /// The text.
    pub(crate) text: &'static [u8],
    /// The call that fails, 0 for none.
    pub(crate) failing: u64,
    /// How many inputs were asked for.
    pub(crate) asked: u32,
}

impl InputSource for FakeSource {
    ghost file = { λ _ _ _. Unit {0} };

    ghost standard = { λ _ _. Unit {0} };

    ghost asked = { λ _. None };

    ghost refused = { λ _. ⊥ };

    fn read_file(&mut self, bytes: &mut Vec<u8>, name: &str) -> Result<(), InputFault> {
        if name == "absent" {
            Err(InputFault::CannotOpen)
        } else {
            self.read_standard(bytes)
        }
    }

    fn read_standard(&mut self, bytes: &mut Vec<u8>) -> Result<(), InputFault> {
        self.asked = self.asked.wrapping_add(1);
        let mut reader = Counted::new(Failing::new(self.text, self.failing, 1));
        read_whole(&mut reader, bytes, UNKNOWN_LEN)
    }
}

impl VariableSource for FakeSource {
    ghost variable = { λ _ _ _. Unit {0} };

    fn read_variable(&self, alloc: Global, name: &str) -> Result<Option<Vec<u8>>, AllocError> {
        if name == "LANG" {
            Ok(Some(copy_of(alloc, b"de")?))
        } else {
            Ok(None)
        }
    }
}

impl EntrySource for FakeSource {
    ghost entries = { λ _ _. Unit {0} };

    fn read_entries(&self, alloc: Global) -> Result<Vec<Vec<u8>>, AllocError> {
        let mut entries = Vec::new(alloc);
        entries.push(copy_of(alloc, b"A=b")?)?;
        Ok(entries)
    }
}

/// A copy of a text.
fn copy_of(alloc: Global, text: &[u8]) -> Result<Vec<u8>, AllocError> {
    let mut copy = Vec::new(alloc);
    copy.extend_from_slice(text)?;
    Ok(copy)
}

/// The files of a system that has none at first: what was written last, and whether it got its
/// path.
#[derive(Drop)]
pub(crate) struct FakeFiles {
    /// Where files are kept.
    pub(crate) alloc: Global,
    /// The call of a file that fails, 0 for none.
    pub(crate) failing: u64,
    /// What the file that was closed last holds.
    pub(crate) closed: Vec<u8>,
    /// Whether that has the path of the output.
    pub(crate) is_there: bool,
}

impl OutputFiles for FakeFiles {
    type File = Failing<Vec<u8>>;

    ghost log = { λ _. None };

    fn kind(&mut self, _path: &str) -> FileKind {
        FileKind::Regular(None)
    }

    fn link(&mut self, _alloc: Global, _path: &str) -> Result<Option<String>, OutputFault> {
        Ok(None)
    }

    fn number(&mut self) -> u32 {
        7
    }

    fn create_new(&mut self, _path: &str, _mode: u32) -> Result<Failing<Vec<u8>>, MakeFault> {
        Ok(Failing::new(Vec::new(self.alloc), self.failing, 1))
    }

    fn set_owner(&mut self, _file: &Failing<Vec<u8>>, owner: Owner) -> Option<Owner> {
        Some(owner)
    }

    fn set_mode(&mut self, _file: &Failing<Vec<u8>>, _mode: u32) -> bool {
        true
    }

    fn open(&mut self, _path: &str) -> Option<Failing<Vec<u8>>> {
        None
    }

    fn stream(&mut self, _number: u32) -> Option<Failing<Vec<u8>>> {
        None
    }

    fn close(&mut self, file: Counted<Failing<Vec<u8>>>) -> bool
        ensures { None ≡ logged (closes None (counted_failures file) result ∷ []) None }
    {
        self.closed = file.into_inner().into_inner();
        true
    }

    fn rename(&mut self, _from: &str, _to: &str) -> bool {
        self.is_there = true;
        true
    }

    fn remove(&mut self, _path: &str) {
        self.closed.clear();
    }
}
