//! What tools ask of a system: inputs, variables, and the entries of the environment.
use crate::environment;
use crate::reading::{UNKNOWN_LEN, read_named};
use crate::system_calls::SystemCalls;
use po_tools::{EntrySource, VariableSource};
use runs::{Counted, InputFault, InputSource, read_whole};
use std::alloc::{AllocError, Global};

/// Where the inputs of the program are read from.
#[derive(Drop)]
pub struct Source<'s, S>(pub &'s S);

impl<'s, S: SystemCalls> InputSource for Source<'s, S> {
    ghost use Rattle.std.specs.Prelude.{None};
    ghost use Rattle.process.specs.Reading.{ReadsFile, ReadsInput};

    ghost file = { λ source name reading. ReadsFile (S.opens source.0.now name) reading };

    ghost standard = { λ source reading. ReadsInput (S.input source.0.now) reading };

    ghost asked = { λ _. None };

    ghost refused = { λ _. ⊥ };

    fn read_file(&mut self, bytes: &mut Vec<u8>, name: &str) -> Result<(), InputFault> {
        read_named(self.0, bytes, name)
    }

    fn read_standard(&mut self, bytes: &mut Vec<u8>) -> Result<(), InputFault> {
        read_whole(&mut Counted::new(self.0.input()), bytes, UNKNOWN_LEN)
    }
}

impl<'s, S: SystemCalls> VariableSource for Source<'s, S> {
    ghost variable = { λ source name value. S.value source.0.now name value };

    fn read_variable(&self, alloc: Global, name: &str) -> Result<Option<Vec<u8>>, AllocError> {
        environment::variable(alloc, self.0, name)
    }
}

impl<'s, S: SystemCalls> EntrySource for Source<'s, S> {
    ghost use Rattle.std.specs.Prelude.{codes};
    ghost use Rattle.process.specs.Reading.{ReadsFile};
    ghost use Rattle.process.specs.Value.{AreEntries};
    ghost use Rattle.runs.specs.Inputs.{gives};

    ghost entries = { λ source entries. AreEntries (S.entry source.0.now)
        (λ text. ReadsFile (S.opens source.0.now (codes "/proc/self/environ")) (gives text)) entries };

    fn read_entries(&self, alloc: Global) -> Result<Vec<Vec<u8>>, AllocError> {
        environment::entries(alloc, self.0)
    }
}
