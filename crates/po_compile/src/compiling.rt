//! The MO file of PO texts.

ghost use Rattle.std.specs.Prelude.{◌≡◌, ◌≢◌, ◌<◌, ◌^◌, ℕ, [], ◌∷◌, List, length, IfOk, IfErr, MatchResult};
ghost use Rattle.po_compile.specs.Prelude.{AreCollected, AreCompiled, AreRead, HasStatistics, IsCompilation, IsCompileFault, IsReportedFault, fault_of_only_input, joined_entries, slice_texts, stats_of};

use crate::collecting::Collected;
use crate::inputs::collect_all;
use crate::laws::messages_mean_entries;
use crate::options::{Compiled, Options};
use crate::repeats::fault_of_input;
use crate::rows::compiled_pairs;
use crate::sorting::{sorted_rows, statistics_of};
use mo_file::laws::layout_is_mo_file;
use mo_file::{BuildError, build_sorted};
use po_entry::JoinError;
use po_syntax::{PoError, PoFault};
use std::alloc::Global;

/// Compiles PO texts to one MO file. An empty list of texts is compiled as one empty text is.
///
/// Refused, input by input, with why its text isn't read, then with its first duplicate; then with
/// the first duplicate across inputs; then with `TooLarge`, at line 0 of input 0, where the file
/// would have more than 4,294,967,295 bytes. `OutOfMemory`, at line 0 of input 0, may come in place
/// of any result.
pub fn compile_all(alloc: Global, texts: &[&[u8]], options: Options) -> Result<Compiled, JoinError>
    requires { length texts.now < 2 ^ 32 }
    ensures exact { MatchResult result (AreCompiled options (slice_texts texts.now))
        (IsCompileFault options (slice_texts texts.now)) }
    ensures statistics { IfOk result (HasStatistics (slice_texts texts.now)) }
{
    match collect_all(alloc, texts, options.use_fuzzy) {
        Ok(inputs) => compile_collected(alloc, &inputs, Vec::new(alloc), options),
        Err(error) => Err(error),
    }
}

/// Compiles a PO text to an MO file, as `compile_all` does where it is the only one. Refused with
/// why the text isn't read, then with its first duplicate; then with `TooLarge`, at line 0, where
/// the file would have more than 4,294,967,295 bytes. `OutOfMemory`, at line 0, may come in place
/// of any result.
pub fn compile(alloc: Global, text: &[u8], options: Options) -> Result<Compiled, PoError>
    ensures exact { MatchResult result (AreCompiled options (text.now ∷ []))
        (λ e. IsCompileFault options (text.now ∷ []) (fault_of_only_input e)) }
    ensures statistics { IfOk result (HasStatistics (text.now ∷ [])) }
{
    match compile_all(alloc, &[text], options) {
        Ok(compiled) => Ok(compiled),
        Err(error) => Err(error.error),
    }
}

/// Compiles the joined list of inputs whose live entries are collected. Refused as `compile_all`
/// refuses their texts. The file is written over what `room` holds, as the bytes of a text: what it
/// doesn't need of the room is given back first, and the room gets longer where that is too short.
pub fn compile_collected(
    alloc: Global,
    inputs: &[Collected],
    room: Vec<u8>,
    options: Options,
) -> Result<Compiled, JoinError>
    requires few { length inputs.now < 2 ^ 32 }
    requires read { (texts : List (List ℕ)) × AreCollected options.use_fuzzy texts inputs.now }
    ensures found { IfOk result (λ compiled. (texts : List (List ℕ)) (of : AreCollected options.use_fuzzy texts inputs.now)
        → AreRead texts of.catalogues × IsCompilation options (joined_entries of.catalogues) compiled) }
    ensures statistics { IfOk result (λ compiled. (texts : List (List ℕ)) (of : AreCollected options.use_fuzzy texts inputs.now)
        → compiled.stats ≡ stats_of (joined_entries of.catalogues)) }
    ensures fault { IfErr result (λ e. (texts : List (List ℕ)) → AreCollected options.use_fuzzy texts inputs.now
        → IsCompileFault options texts e) }
{
    let room = shrunk(room, inputs);
    let rows = sorted_rows(alloc, inputs)?;
    let pairs = compiled_pairs(alloc, &rows)?;
    let count = pairs.len();
    let stats = statistics_of(&rows);
    drop(rows);
    layout_is_mo_file();
    messages_mean_entries();
    match build_sorted(room, options.order, &pairs) {
        Ok(bytes) => Ok(Compiled {
            bytes,
            n: count as u32,
            stats,
        }),
        Err(error) => Err(reported_fault(error)),
    }
}

/// What the file of the inputs needs of a room. The rest is given back.
fn shrunk(mut room: Vec<u8>, inputs: &[Collected]) -> Vec<u8> {
    let len = inputs.iter().fold(0, |sum: usize, input| sum.saturating_add(input.file_len()));
    room.truncate(len);
    room.shrink_to_fit();
    room
}

/// The fault that is reported where no file can be built of sorted messages.
fn reported_fault(error: BuildError) -> JoinError
    requires { error ≢ BuildError.NotSorted }
    ensures { IsReportedFault error result }
{
    let kind = match error {
        BuildError::TooLarge => PoFault::TooLarge,
        BuildError::OutOfMemory => PoFault::OutOfMemory,
        BuildError::NotSorted => unreachable!(),
    };
    fault_of_input(0, PoError { kind, line: 0 })
}
