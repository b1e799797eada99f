//! The inputs of a tool, read in the order of the command line.
ghost use Rattle.std.specs.Prelude.{◌≡◌, ◌≢◌, ◌↔◌, ◌⊎◌, ◌<◌, ◌∷◌, [], drop, take, vec_len, Err, IfErr, IsErrOf, IsOk, OnErr, OnOk, map, option_map, false, true, None, Some, MatchResult, IfOk};
ghost use Rattle.runs.specs.Prelude.{AreInputs, Asks, AsksAll, AsksFirst, IsInputFault, ReadsAs, Stays, asked_arguments, asked_for, named_inputs, input_fault_text, named_files, program_text, is_standard, shown_name};
ghost use Rattle.runs.specs.Inputs.{gives, refuses};
ghost use Rattle.runs.specs.declared.inputs.InputFault.TheVariants.{OutOfMemory};

use crate::program_fault::ProgramFault;
use crate::run::{STANDARD, shown_name};
use std::alloc::{AllocError, Global};

/// Why an input isn't read.
#[derive(Clone, Copy, Debug, PartialEq, Eq)]
pub enum InputFault {
    /// The file can't be opened.
    CannotOpen,
    /// It was opened, and reading it failed.
    ReadFault,
    /// An allocation failed.
    OutOfMemory,
}

impl From<AllocError> for InputFault {
    ghost from_gives = { λ _ fault. fault ≡ OutOfMemory };

    fn from(_error: AllocError) -> InputFault {
        InputFault::OutOfMemory
    }
}

/// Where inputs are read from: the files of a system, and its standard input.
pub trait InputSource {
    ghost use Rattle.std.specs.Prelude.{ℕ, List, Option, drop, take, vec_len};
    ghost use Rattle.runs.specs.Inputs.{Asked, Asks, Reading, Stays, gives, refuses, file_of, standard_input};

    // What reading the file of a name may come to.
    ghost file: { Self → List ℕ → Reading → Type 0 };

    // What reading standard input may come to.
    ghost standard: { Self → Reading → Type 0 };

    // What it was asked for so far, where that is known.
    ghost asked: { Self → Option (List Asked) };

    // The input that it was asked for last can't be opened or read.
    ghost refused: { Self → Type 0 };

    /// Appends the bytes of the file of this name. Where they can't all be read, some of them may
    /// be appended.
    fn read_file(&mut self, bytes: &mut Vec<u8>, name: &str) -> Result<(), InputFault>
        ensures before { take (vec_len bytes.old) bytes.new.items ≡ bytes.old.items }
        ensures reading { MatchResult result
            (λ _. file self.old name.now (gives (drop (vec_len bytes.old) bytes.new.items)))
            (λ why. (why ≡ InputFault.OutOfMemory) ⊎ file self.old name.now (refuses why)) }
        ensures stays { Stays (file self.old) (file self.new) (standard self.old) (standard self.new) }
        ensures asked { Asks (asked self.old) (asked self.new) (file_of name.now ∷ []) }
        ensures refused { MatchResult result (λ _. refused self.new → ⊥)
            (λ why. why ≡ InputFault.OutOfMemory → refused self.new → ⊥) };

    /// Appends the bytes of standard input, as `read_file` does.
    fn read_standard(&mut self, bytes: &mut Vec<u8>) -> Result<(), InputFault>
        ensures before { take (vec_len bytes.old) bytes.new.items ≡ bytes.old.items }
        ensures reading { MatchResult result
            (λ _. standard self.old (gives (drop (vec_len bytes.old) bytes.new.items)))
            (λ why. (why ≡ InputFault.OutOfMemory) ⊎ standard self.old (refuses why)) }
        ensures stays { Stays (file self.old) (file self.new) (standard self.old) (standard self.new) }
        ensures asked { Asks (asked self.old) (asked self.new) (standard_input ∷ []) }
        ensures refused { MatchResult result (λ _. refused self.new → ⊥)
            (λ why. why ≡ InputFault.OutOfMemory → refused self.new → ⊥) };
}

/// An input with its name in fault lines.
#[derive(Drop)]
pub struct Input<'a> {
    /// The name: that of a file, or `<stdin>`.
    pub name: &'a str,
    /// How many bytes were read.
    pub len: usize,
}

/// The inputs that a command line names, up to the first that can't be read.
#[derive(Drop)]
pub struct Inputs<'a> {
    /// The bytes of each input after those of the inputs before it. Behind them may stand some of
    /// the one that can't be read.
    pub bytes: Vec<u8>,
    /// Each input that was read, in order.
    pub texts: Vec<Input<'a>>,
    /// Why the next one can't be read, where one can't.
    pub fault: Option<ProgramFault<'a>>,
}

impl<'a> Inputs<'a> {
    /// Reads the file of each argument, or standard input for `-`, which is empty from the second
    /// time on. The first that can't be read ends the inputs. Refused only where an allocation
    /// failed.
    pub fn read<S: InputSource>(
        alloc: Global,
        source: &mut S,
        arguments: &[&'a str],
    ) -> Result<Inputs<'a>, AllocError>
        ensures inputs { IfOk result (λ inputs. AreInputs (S.file source.old) (S.standard source.old) false
            (map (λ argument. argument.now) arguments.now) (named_inputs inputs)
            (option_map program_text inputs.fault)) }
        ensures stays { Stays (S.file source.old) (S.file source.new) (S.standard source.old) (S.standard source.new) }

        // Each is asked for in its turn, and standard input once at most.
        ensures asked { AsksFirst (S.asked source.old) (S.asked source.new)
            (map (λ argument. argument.now) arguments.now) }

        // One is asked for only after all before it were read.
        ensures asked_read { IfOk result (λ inputs. AsksAll (S.asked source.old) (S.asked source.new)
            (asked_arguments (map (λ argument. argument.now) arguments.now)
            (named_inputs inputs) (option_map program_text inputs.fault))) }

        // What can't be read isn't told as out of memory.
        ensures fault { IfOk result (λ inputs. inputs.fault ≢ Some ProgramFault.OutOfMemory) }
        ensures memory { OnErr result (S.refused source.new → ⊥) }
    {
        let mut bytes = Vec::new(alloc);
        let mut texts = Vec::new(alloc);
        let mut is_stdin_read = false;
        for argument in arguments {
            let name = shown_name(argument);
            let is_standard = *argument == STANDARD;
            let start = bytes.len();
            if let Err(why) = read_argument(source, &mut bytes, argument, is_stdin_read) {
                if why == InputFault::OutOfMemory {
                    return Err(AllocError);
                }
                let fault = Some(fault_of(name, why));
                return Ok(Inputs {
                    bytes,
                    texts,
                    fault,
                });
            }
            let len = bytes.len() - start;
            texts.push(Input { name, len })?;
            is_stdin_read = is_stdin_read || is_standard;
        }
        Ok(Inputs {
            bytes,
            texts,
            fault: None,
        })
    }

    /// The inputs that were read, borrowed.
    pub fn borrowed<'s>(&'s self, alloc: Global) -> Result<Vec<(&'a str, &'s [u8])>, AllocError>
        ensures files { IfOk result (λ borrowed. named_files borrowed.items ≡ named_inputs self.now) }
        ensures none { self.now.texts.items ≡ [] → IsOk result }
    {
        let mut borrowed = Vec::with_capacity(alloc, self.texts.len())?;
        let mut left = self.bytes.as_slice();
        for input in &self.texts {
            let (bytes, rest) = left.split_at(input.len.min(left.len()));
            borrowed.push((input.name, bytes))?;
            left = rest;
        }
        Ok(borrowed)
    }
}

/// The bytes of the only input, by the argument for it.
pub fn read_one<'a, S: InputSource>(
    alloc: Global,
    source: &mut S,
    argument: &'a str,
) -> Result<Vec<u8>, ProgramFault<'a>>
    ensures bytes { IfOk result (λ bytes.
        ReadsAs (S.file source.old) (S.standard source.old) argument.now (is_standard argument.now) false
        (gives bytes.items)) }
    ensures fault { IfErr result (λ reported. (reported ≡ ProgramFault.OutOfMemory)
        ⊎ IsInputFault (S.file source.old) (S.standard source.old) argument.now (program_text reported)) }
    ensures stays { Stays (S.file source.old) (S.file source.new) (S.standard source.old) (S.standard source.new) }
    ensures asked { Asks (S.asked source.old) (S.asked source.new)
        (asked_for argument.now (is_standard argument.now) false) }

    // It isn't called out of memory where it can't be read.
    ensures read { OnOk result (S.refused source.new → ⊥) }
    ensures memory { IsErrOf result ProgramFault.OutOfMemory → S.refused source.new → ⊥ }
{
    let mut bytes = Vec::new(alloc);
    match read_argument(source, &mut bytes, argument, false) {
        Ok(()) => Ok(bytes),
        Err(why) => Err(fault_of(shown_name(argument), why)),
    }
}

/// Appends what one argument stands for.
fn read_argument<S: InputSource>(
    source: &mut S,
    bytes: &mut Vec<u8>,
    argument: &str,
    is_stdin_read: bool,
) -> Result<(), InputFault>
    ensures before { take (vec_len bytes.old) bytes.new.items ≡ bytes.old.items }
    ensures reading { MatchResult result
        (λ _. ReadsAs (S.file source.old) (S.standard source.old) argument.now (is_standard argument.now) is_stdin_read
        (gives (drop (vec_len bytes.old) bytes.new.items)))
        (λ why. (why ≡ InputFault.OutOfMemory)
        ⊎ ReadsAs (S.file source.old) (S.standard source.old) argument.now (is_standard argument.now) is_stdin_read (refuses why)) }
    ensures stays { Stays (S.file source.old) (S.file source.new) (S.standard source.old) (S.standard source.new) }
    ensures asked { Asks (S.asked source.old) (S.asked source.new)
        (asked_for argument.now (is_standard argument.now) is_stdin_read) }
    ensures refused { MatchResult result
        (λ _. S.refused source.new → S.refused source.old × (is_stdin_read ≡ true))
        (λ why. why ≡ InputFault.OutOfMemory → S.refused source.new → ⊥) }
{
    if argument != STANDARD {
        source.read_file(bytes, argument)
    } else if is_stdin_read {
        Ok(())
    } else {
        source.read_standard(bytes)
    }
}

/// The fault of an input that isn't read.
fn fault_of(name: &str, why: InputFault) -> ProgramFault<'_>
    ensures text { program_text result ≡ input_fault_text name.now why }
    ensures memory { (result ≡ ProgramFault.OutOfMemory) ↔ (why ≡ InputFault.OutOfMemory) }
{
    match why {
        InputFault::CannotOpen => ProgramFault::CannotOpen(name),
        InputFault::ReadFault => ProgramFault::ReadFault(name),
        InputFault::OutOfMemory => ProgramFault::OutOfMemory,
    }
}
