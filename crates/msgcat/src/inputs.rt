//! Reading inputs: the pieces of each are read into one store. After the last input an index of all
//! messages tells which entries are of one message.
ghost use Rattle.std.specs.Prelude.{◌≡◌, ◌⊎◌, All, IfErr, IfOk, List, OnOk};
ghost use Rattle.msgcat.specs.Prelude.{AreReadAs, HasNoDuplicate, HoldInputs, IsFileFault, Lacks, TextEntry, named_files, out_of_memory};
ghost use Rattle.msgcat.specs.Inputs as merge;
ghost use Rattle.msgcat.specs.Internal.Inputs.{AreNumberedInputs, AreReadUpTo, IsFirstRepeating};

use crate::input::ReadInput;
use crate::merge_inputs::MergeInputs;
use po_entry::{
    Drafts, EntryPlace, Store, duplicate_at, message_numbers, places_of, repeated_lines,
    split_at_most,
};
use po_reader::read_into;
use po_syntax::{PoError, PoFault};
use std::alloc::{AllocError, AllocFailed, Global};

/// Why an input isn't read.
#[derive(Clone, Copy)]
pub(crate) struct FileFault<'a> {
    /// The input's name.
    pub(crate) name: &'a str,
    /// The first fault of its text; without a line where an allocation failed.
    pub(crate) error: PoError,
}

impl From<AllocError> for FileFault<'_> {
    ghost from_gives = { λ _ fault. fault.error ≡ out_of_memory };

    fn from(error: AllocError) -> Self {
        FileFault {
            name: "",
            error: error.into(),
        }
    }
}

impl<T: Drop> From<AllocFailed<T>> for FileFault<'_> {
    ghost from_gives = { λ _ fault. fault.error ≡ out_of_memory };

    fn from(failed: AllocFailed<T>) -> Self {
        FileFault {
            name: "",
            error: failed.into(),
        }
    }
}

/// Inputs that are read, up to the first that has a fault.
#[derive(Drop)]
pub(crate) struct ReadInputs<'a> {
    /// Their entries, and then those that come before the fault.
    pub(crate) store: Store,
    /// The inputs.
    pub(crate) inputs: Vec<ReadInput<'a>>,
    /// The fault of the input after these.
    pub(crate) fault: Option<FileFault<'a>>,
}

/// Reads inputs, up to the first that has a fault. Refused only where an allocation failed.
fn read_each<'a>(
    alloc: Global,
    inputs: &[(&'a str, &[u8])],
) -> Result<ReadInputs<'a>, FileFault<'a>>
    requires { All (λ file. Lacks 0 file.name) (named_files inputs.now) }
    ensures read { IfOk result (AreReadUpTo (named_files inputs.now)) }
    ensures memory { IfErr result (λ fault. fault.error ≡ out_of_memory) }
{
    // An entry has hardly ever more bytes in the store than in its text.
    let room = inputs.iter().fold(0_usize, |total, (_, text)| total.saturating_add(text.len()));
    let mut store = Store::with_capacity(alloc, 0, room)?;
    let mut drafts = Drafts::new(alloc);
    let mut read = Vec::new(alloc);
    for (name, text) in inputs {
        let before = store.len();
        if let Err(error) = read_into(alloc, text, &mut drafts, &mut store) {
            let fault = FileFault { name, error };
            if error.kind == PoFault::OutOfMemory {
                return Err(fault);
            }
            return Ok(ReadInputs {
                store,
                inputs: read,
                fault: Some(fault),
            });
        }
        read.push(ReadInput::of(name, before, store.len() - before))?;
    }
    Ok(ReadInputs {
        store,
        inputs: read,
        fault: None,
    })
}

/// Looks for the first input in which a live entry repeats an earlier one, by where the entries of
/// all inputs stand and the numbers of their messages. Refused with its first duplicate, and where
/// an allocation failed.
fn check_inputs<'a>(
    alloc: Global,
    inputs: &[ReadInput<'a>],
    places: &[EntryPlace],
    numbers: &[usize],
) -> Result<(), FileFault<'a>>
    requires { (read : List merge.Named) × (part : List TextEntry)
        × AreNumberedInputs read part inputs.now places.now numbers.now }
    ensures distinct { OnOk result ((read : List merge.Named) (part : List TextEntry)
        → AreNumberedInputs read part inputs.now places.now numbers.now
        → All (λ input. HasNoDuplicate input.entries) read) }
    ensures fault { IfErr result (λ fault. (read : List merge.Named) (part : List TextEntry)
        → AreNumberedInputs read part inputs.now places.now numbers.now
        → (fault.error ≡ out_of_memory) ⊎ IsFirstRepeating read fault) }
{
    let mut seen = Vec::new(alloc);
    let mut places_left = places;
    let mut numbers_left = numbers;
    for input in inputs {
        let start = places.len() - places_left.len();
        let (own_places, later_places) = split_at_most(places_left, input.count);
        let (own, later) = split_at_most(numbers_left, input.count);
        if let Some((first, line)) = repeated_lines(&mut seen, start, own, own_places)? {
            return Err(FileFault {
                name: input.name,
                error: duplicate_at(first, line),
            });
        }
        places_left = later_places;
        numbers_left = later;
    }
    Ok(())
}

/// Reads inputs. Refused with the first fault of the first input that has one: its text's, or its
/// first duplicate; and where an allocation failed.
pub(crate) fn read_inputs<'a>(
    alloc: Global,
    inputs: &[(&'a str, &[u8])],
) -> Result<MergeInputs<'a>, FileFault<'a>>
    requires { All (λ file. Lacks 0 file.name) (named_files inputs.now) }
    ensures read { IfOk result (λ kept. (read : List merge.Named) × AreReadAs (named_files inputs.now) read
        × HoldInputs read kept) }
    ensures fault { IfErr result (λ fault. (fault.error ≡ out_of_memory)
        ⊎ IsFileFault (named_files inputs.now) fault.name.now fault.error) }
{
    let read = read_each(alloc, inputs)?;
    let (numbers, count) = message_numbers(alloc, &read.store)?;
    let places = places_of(alloc, &read.store)?;
    check_inputs(alloc, &read.inputs, &places, &numbers)?;
    if let Some(fault) = read.fault {
        return Err(fault);
    }
    Ok(MergeInputs::of(alloc, read.store, read.inputs, &numbers, count)?)
}
