//! The text of what inputs are merged to, message by message.
ghost use Rattle.std.specs.Prelude.{◌≡◌, ◌<◌, ◌∷◌, [], All, IfErr, List, MatchResult, OnOk, fold, get_or, length};
ghost use Rattle.msgcat.specs.Prelude.{HasAdmittedCharset, HoldInputs, IsMergeFault, merged, merged_messages, messages};
ghost use Rattle.msgcat.specs.Inputs as merge;
ghost use Rattle.po_writer.specs.Prelude.{with_entry};
ghost use Rattle.msgcat.specs.Internal.MergedText.{IsPartWritten, IsTextOfMerged};

use crate::input::MergeOptions;
use crate::merge_inputs::MergeInputs;
use po_entry::Store;
use po_syntax::PoError;
use po_writer::push_separated;
use std::alloc::Global;

/// Appends what a message is merged to, if it is kept. What is merged of several definitions stands
/// in `merged`, in place of what it held.
fn push_message(
    alloc: Global,
    text: &mut Vec<u8>,
    inputs: &MergeInputs<'_>,
    options: &MergeOptions,
    number: usize,
    merged: &mut Store,
) -> Result<(), PoError>
    requires { (read : List merge.Named) × HoldInputs read inputs.now × (number < length (messages read)) }
    ensures text { OnOk result ((read : List merge.Named) → HoldInputs read inputs.now
        → number < length (messages read) → text.new.items
        ≡ fold with_entry text.old.items (merged_messages options.now (get_or (messages read) number [] ∷ []))) }
    ensures admitted { OnOk result ((read : List merge.Named) → HoldInputs read inputs.now
        → number < length (messages read)
        → All HasAdmittedCharset (merged_messages options.now (get_or (messages read) number [] ∷ []))) }
    ensures fault { IfErr result (λ error. (read : List merge.Named) → HoldInputs read inputs.now
        → number < length (messages read)
        → IsMergeFault (merged_messages options.now (get_or (messages read) number [] ∷ [])) error) }
{
    merged.clear();
    match inputs.merge_message(alloc, options, number, merged)? {
        Some(entry) => Ok(push_separated(text, &entry)?),
        None => Ok(()),
    }
}

/// Appends the obsolete ones of the entries that inputs are merged to, or the live ones.
fn push_messages(
    alloc: Global,
    text: &mut Vec<u8>,
    inputs: &MergeInputs<'_>,
    options: &MergeOptions,
    obsolete: bool,
) -> Result<(), PoError>
    requires { (read : List merge.Named) × HoldInputs read inputs.now }
    ensures pushed { OnOk result ((read : List merge.Named) → HoldInputs read inputs.now
        → IsPartWritten obsolete (merged options.now read) text.old.items text.new.items) }
    ensures fault { IfErr result (λ error. (read : List merge.Named) → HoldInputs read inputs.now
        → IsMergeFault (merged options.now read) error) }
{
    let mut merged = Store::new(alloc);
    for number in 0..inputs.message_count() {
        if inputs.is_obsolete(number) == obsolete {
            push_message(alloc, text, inputs, options, number, &mut merged)?;
        }
    }
    Ok(())
}

/// The text of what inputs are merged to, written over what `room` holds. Refused, without a line,
/// with `ForeignCharset` for a header whose charset isn't admitted, and where an allocation failed.
pub(crate) fn merged_text(
    alloc: Global,
    room: Vec<u8>,
    inputs: &MergeInputs<'_>,
    options: &MergeOptions,
) -> Result<Vec<u8>, PoError>
    requires { (read : List merge.Named) × HoldInputs read inputs.now }
    ensures { (read : List merge.Named) → HoldInputs read inputs.now
        → MatchResult result (λ text. IsTextOfMerged (merged options.now read) text.items)
        (IsMergeFault (merged options.now read)) }
{
    let mut text = room;
    text.clear();
    push_messages(alloc, &mut text, inputs, options, false)?;
    push_messages(alloc, &mut text, inputs, options, true)?;
    Ok(text)
}
