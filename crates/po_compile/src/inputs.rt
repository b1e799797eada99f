//! Several inputs collected.

ghost use Rattle.std.specs.Prelude.{◌<◌, ◌^◌, IfErr, IfOk, length};
ghost use Rattle.po_compile.specs.Prelude.{AreCollected, IsReadingFault, slice_texts};

use crate::collecting::{Collected, collect};
use crate::repeats::{check_each, fault_of_input};
use po_entry::JoinError;
use po_reader::laws::entries_can_stand;
use std::alloc::Global;

/// Collects the messages of the live entries of several texts. Refused with the fault of the first
/// text that isn't read, if no text before it has a duplicate, and else with the first of those;
/// and where an allocation failed.
pub fn collect_all(
    alloc: Global,
    texts: &[&[u8]],
    use_fuzzy: bool,
) -> Result<Vec<Collected>, JoinError>
    requires { length texts.now < 2 ^ 32 }
    ensures found { IfOk result (λ inputs. AreCollected use_fuzzy (slice_texts texts.now) inputs.items) }
    ensures fault { IfErr result (IsReadingFault (slice_texts texts.now)) }
{
    entries_can_stand();
    let mut inputs = Vec::with_capacity(alloc, texts.len())?;
    for (input, text) in texts.iter().enumerate() {
        match collect(alloc, text, use_fuzzy) {
            Ok(collected) => inputs.push(collected)?,
            Err(error) => {
                check_each(alloc, &inputs)?;
                return Err(fault_of_input(input as u32, error));
            }
        }
    }
    Ok(inputs)
}
