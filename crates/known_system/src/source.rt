//! What a system in memory is asked for: files, standard input, and the environment.
ghost use Rattle.std.specs.Prelude.{◌≡◌, [], Some, option_map};
ghost use Rattle.runs.specs.Inputs.{gives};
ghost use Rattle.known_system.specs.Prelude.{bytes_of, entry_texts, reading_of, texts_by_name};

use crate::questions::{Question, Questions};
use envsubst::EntrySource;
use gettext::VariableSource;
use runs::{InputFault, InputSource};
use std::alloc::{AllocError, Global};

/// Bytes with a name: of a file that is there, or of a variable that is set.
#[derive(Clone, Copy, Drop)]
pub struct Named<'a> {
    /// The name.
    pub name: &'a str,
    /// The bytes.
    pub bytes: &'a [u8],
}

/// Files, standard input and an environment that are known, and what was asked for so far.
#[derive(Drop)]
pub struct KnownSource<'a> {
    /// The files that are there. Of two with one name the first is read.
    pub files: &'a [Named<'a>],
    /// What standard input gives.
    pub standard: &'a [u8],
    /// The variables that are set. Of two with one name the first is.
    pub variables: &'a [Named<'a>],
    /// The entries of the environment, each `NAME=value`.
    pub entries: &'a [&'a [u8]],
    /// What was asked for.
    pub asked: Questions,
}

impl<'a> KnownSource<'a> {
    /// The source of these files, with an empty standard input and an empty environment.
    pub fn new(files: &'a [Named<'a>]) -> KnownSource<'a>
        ensures files { result.files.now ≡ files.now }
        ensures standard { result.standard.now ≡ [] }
        ensures variables { result.variables.now ≡ [] }
        ensures entries { result.entries.now ≡ [] }
        ensures asked { result.asked.items ≡ [] }
    {
        KnownSource {
            files,
            standard: &[],
            variables: &[],
            entries: &[],
            asked: Questions::new(),
        }
    }
}

/// The bytes of the first of this name.
fn bytes_of<'a>(all: &'a [Named<'a>], name: &str) -> Option<&'a [u8]>
    ensures { option_map (λ bytes. bytes.now) result ≡ bytes_of (texts_by_name all.now) name.now }
{
    for one in all {
        if one.name == name {
            return Some(one.bytes);
        }
    }
    None
}

impl<'a> InputSource for KnownSource<'a> {
    ghost file = { λ source name reading. reading ≡ reading_of (bytes_of (texts_by_name source.files.now) name) };

    ghost standard = { λ source reading. reading ≡ gives source.standard.now };

    ghost asked = { λ source. Some source.asked.items };

    ghost refused = { λ _. ⊥ };

    fn read_file(&mut self, bytes: &mut Vec<u8>, name: &str) -> Result<(), InputFault> {
        self.asked = self.asked.then(&Question::File(name));
        match bytes_of(self.files, name) {
            Some(text) => {
                bytes.extend_from_slice(text)?;
                Ok(())
            }
            None => Err(InputFault::CannotOpen),
        }
    }

    fn read_standard(&mut self, bytes: &mut Vec<u8>) -> Result<(), InputFault> {
        self.asked = self.asked.then(&Question::Standard);
        bytes.extend_from_slice(self.standard)?;
        Ok(())
    }
}

impl<'a> VariableSource for KnownSource<'a> {
    ghost variable = { λ source name value. value ≡ bytes_of (texts_by_name source.variables.now) name };

    fn read_variable(&self, alloc: Global, name: &str) -> Result<Option<Vec<u8>>, AllocError> {
        match bytes_of(self.variables, name) {
            Some(value) => Ok(Some(Vec::from_slice(alloc, value)?)),
            None => Ok(None),
        }
    }
}

impl<'a> EntrySource for KnownSource<'a> {
    ghost entries = { λ source entries. entries ≡ entry_texts source.entries.now };

    fn read_entries(&self, alloc: Global) -> Result<Vec<Vec<u8>>, AllocError> {
        let mut entries = Vec::new(alloc);
        for entry in self.entries {
            let bytes = Vec::from_slice(alloc, entry)?;
            entries.push(bytes)?;
        }
        Ok(entries)
    }
}
