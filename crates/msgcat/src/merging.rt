//! What several definitions of one message are merged to.

ghost use Rattle.std.specs.Prelude.{◌≡◌, ◌<◌, ◌∷◌, [], length, All, IfOk, IfErr, OnOk};
ghost use Rattle.msgcat.specs.Prelude.{CanBeMerged, IsCatalogueEntry, IsDefinition, IsMergeFault, entry_view, merged_entry, named_entries, texts};

use crate::comments::comment_of;
use crate::definition::{NamedEntry, Part, first_with};
use crate::input::MergeOptions;
use crate::joined_translations::{joined_forms, translations};
use po_entry::{EntryRef, Fields, Store, copy_optional};
use po_syntax::{CommentKind, PoError, PoFault};
use std::alloc::{AllocError, Global};

/// The forms that the definitions are merged to, and whether these are fuzzy.
fn merged_forms(
    alloc: Global,
    options: &MergeOptions,
    definitions: &[NamedEntry<'_>],
) -> Result<(Vec<Vec<u8>>, bool), AllocError>
    requires some { 0 < length definitions.now }
    requires valid { All IsDefinition (named_entries definitions.now) }
    ensures forms { IfOk result (λ r. texts r.0.items
        ≡ (merged_entry options.now (named_entries definitions.now)).forms) }
    ensures fuzzy { IfOk result (λ r. r.1 ≡ (merged_entry options.now (named_entries definitions.now)).fuzzy) }
{
    if !options.use_first {
        let found = translations(alloc, definitions)?;
        if found.len() > 1 {
            return Ok((joined_forms(alloc, found)?, true));
        }
    }
    let taken = first_with(definitions, Part::Translation);
    Ok((taken.forms().copy(alloc)?, taken.fuzzy()))
}

/// Fills in what the definitions of one message are merged to.
fn fill_merged(
    alloc: Global,
    options: &MergeOptions,
    definitions: &[NamedEntry<'_>],
    fields: &mut Fields,
) -> Result<(), AllocError>
    requires some { 0 < length definitions.now }
    requires valid { All IsDefinition (named_entries definitions.now) }
    ensures { OnOk result (entry_view fields.new ≡ merged_entry options.now (named_entries definitions.now)) }
{
    fields.comments = comment_of(alloc, options, CommentKind::Translator, definitions)?;
    fields.extracted = comment_of(alloc, options, CommentKind::Extracted, definitions)?;
    fields.references = comment_of(alloc, options, CommentKind::Reference, definitions)?;
    fields.flags = comment_of(alloc, options, CommentKind::Flags, definitions)?;
    let (forms, fuzzy) = merged_forms(alloc, options, definitions)?;
    fields.forms = forms;
    fields.fuzzy = fuzzy;
    let first = &definitions[0].entry;
    fields.previous = first_with(definitions, Part::Previous).copy_previous(alloc)?;
    fields.context = copy_optional(alloc, first.context())?;
    fields.id = first.id().to_vec(alloc)?;
    fields.plural = copy_optional(alloc, first_with(definitions, Part::Plural).plural())?;
    fields.obsolete = first.obsolete();
    fields.line = first.line();
    Ok(())
}

/// What the definitions of one message are merged to: the only one itself, or what several are
/// merged to, which is added to `merged`. Refused, without a line, with `ForeignCharset` for a
/// header whose charset isn't admitted, or with `OutOfMemory`.
pub(crate) fn merged_entry<'m>(
    alloc: Global,
    options: &MergeOptions,
    definitions: Vec<NamedEntry<'m>>,
    merged: &'m mut Store,
) -> Result<EntryRef<'m>, PoError>
    requires some { 0 < length definitions.items }
    requires can { All CanBeMerged (named_entries definitions.items) }
    ensures merged { IfOk result (λ entry. entry ≡ merged_entry options.now (named_entries definitions.entry.items)) }
    ensures valid { IfOk result IsCatalogueEntry }
    ensures fault { IfErr result (IsMergeFault (merged_entry options.now (named_entries definitions.entry.items) ∷ [])) }
{
    let mut definitions = definitions;
    if definitions.len() < 2 {
        return Ok(definitions.swap_remove(0).entry);
    }
    let mut fields = Fields::empty(alloc);
    fill_merged(alloc, options, &definitions, &mut fields)?;
    if !fields.has_admitted_charset() {
        return Err(PoError {
            kind: PoFault::ForeignCharset,
            line: 0,
        });
    }
    merged.push(&fields)?;
    Ok(merged.get(merged.len() - 1))
}
