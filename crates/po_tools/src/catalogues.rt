//! The tools' work on catalogues: select, merge and check, each by what the tool runs on a store.

ghost use Rattle.std.specs.Prelude.{◌≡◌, ◌⊎◌, ◌<◌, ◌^◌, ◌++◌, All, IfErr, IfOk, IsOk, MatchResult, None, OnOk, Some, length, map};
ghost use Rattle.po_entry.specs.Prelude.{Lacks, IsCatalogueEntry};
ghost use Rattle.po_tools.specs.Prelude.{AreChecked, changed, inputs_view, selected};
ghost use Rattle.msgcat.specs.Prelude.{IsMergeFault, merged, HoldInputs};
ghost use Rattle.po_compile.specs.Prelude.{HoldCatalogues};

use msgattrib::{Attributes, Selection};
use msgcat::{MergeInputs, MergeOptions, ReadInput};
use msgfmt::{CheckFault, check_collected};
use po_catalog::{Catalogue, Entry, has_translation, push_entry, store_of};
use po_compile::Collected;
use po_entry::{Store, message_numbers};
use po_syntax::PoError;
use std::alloc::{AllocError, Global};

/// An entry of a catalogue, by what a selection asks of it.
#[derive(Drop)]
struct Selectable<'a> {
    entry: &'a Entry,
}

impl Attributes for Selectable<'_> {
    ghost entry = { λ e. e.entry.now };

    fn is_header(&self) -> bool {
        self.entry.is_header()
    }

    fn is_translated(&self) -> bool {
        has_translation(self.entry)
    }

    fn is_fuzzy(&self) -> bool {
        self.entry.fuzzy()
    }

    fn is_obsolete(&self) -> bool {
        self.entry.obsolete()
    }
}

/// The entries of a catalogue that are selected, each changed as the selection says (GNU gettext
/// manual, "Invoking the msgattrib Program"). A live header is always kept, stays live and keeps
/// its forms. The entries are moved and none is copied: no memory is taken, so nothing is refused.
pub fn select(catalogue: Catalogue, selection: &Selection) -> Result<Catalogue, PoError>
    ensures list { IfOk result (λ entries. entries ≡ selected selection.now catalogue) }
    ensures never_refused { IsOk result }
{
    let mut entries = catalogue.into_entries();
    entries.retain(|entry| selection.keeps(&Selectable { entry }));
    change_all(&mut entries, selection);
    Ok(Catalogue::of(entries))
}

/// Changes each entry in its place.
fn change_all(entries: &mut [Entry], selection: &Selection)
    requires { All IsCatalogueEntry entries.old }
    ensures changed { entries.new ≡ map (changed selection.now) entries.old }
    ensures valid { All IsCatalogueEntry entries.new }
{
    for entry in entries.iter_mut() {
        change(entry, selection);
    }
}

/// Changes an entry that is kept.
fn change(entry: &mut Entry, selection: &Selection)
    requires { IsCatalogueEntry entry.old }
    ensures changed { entry.new ≡ changed selection.now entry.old }
    ensures valid { IsCatalogueEntry entry.new }
{
    let selectable = Selectable { entry };
    let fuzzy = selection.fuzzy_after(&selectable);
    let obsolete = selection.obsolete_after(&selectable);
    if selection.empties(&selectable) {
        entry.empty_forms();
    }
    entry.set_fuzzy(fuzzy);
    entry.set_obsolete(obsolete);
    if selection.clear_previous {
        entry.clear_previous();
    }
    entry.invariant();
}

/// A catalogue that is merged with others.
#[derive(Debug, Drop)]
pub struct Named<'a> {
    /// The name of the input, under which its forms stand where different translations are joined.
    pub name: &'a str,
    /// The entries that are merged.
    pub catalogue: Catalogue,
}

/// Adds entries to a store.
fn add_all(store: &mut Store, alloc: Global, entries: &[Entry]) -> Result<(), AllocError>
    requires { All IsCatalogueEntry entries.now }
    ensures { OnOk result (store.new ≡ store.old ++ entries.now) }
{
    for entry in entries {
        push_entry(store, alloc, entry)?;
    }
    Ok(())
}

/// The entries of all catalogues, linked by their messages.
fn linked<'a>(alloc: Global, inputs: &[Named<'a>]) -> Result<MergeInputs<'a>, AllocError>
    requires { All (λ input. Lacks 0 input.name.now) inputs.now }
    ensures { IfOk result (HoldInputs (inputs_view inputs.now)) }
{
    let mut store = Store::new(alloc);
    let mut read = Vec::with_capacity(alloc, inputs.len())?;
    for input in inputs {
        let start = store.len();
        let entries = input.catalogue.entries();
        add_all(&mut store, alloc, entries)?;
        read.push(ReadInput::of(input.name, start, entries.len()))?;
    }
    let (numbers, count) = message_numbers(alloc, &store)?;
    MergeInputs::of(alloc, store, read, &numbers, count)
}

/// Merges catalogues, message by message: the definitions of each message become one entry, with
/// the comments, references and flags of all. Translations that differ are joined, each under the
/// name of its input; with `use_first` the first one is taken, with its comments, references and
/// flags. The messages stand in the order in which they first appear. Refused with
/// `ForeignCharset`, without a line, where a merged header names a charset that isn't admitted; and
/// with `OutOfMemory`. (GNU gettext manual, "Invoking the msgcat Program".)
pub fn merge<'a>(
    alloc: Global,
    inputs: &'a [Named<'a>],
    options: &MergeOptions,
) -> Result<Catalogue, PoError>
    requires { All (λ input. Lacks 0 input.name.now) inputs.now }
    ensures merged { IfOk result (λ catalogue. catalogue ≡ merged options.now (inputs_view inputs.now)) }
    ensures fault { IfErr result (IsMergeFault (merged options.now (inputs_view inputs.now))) }
{
    let linked = linked(alloc, inputs)?;
    let mut entries = Vec::new(alloc);
    let mut store = Store::new(alloc);
    for number in 0..linked.message_count() {
        store.clear();
        if let Some(entry) = linked.merge_message(alloc, options, number, &mut store)? {
            let copy = Entry::copied(alloc, &entry)?;
            entries.push(copy)?;
        }
    }
    Ok(Catalogue::of(entries))
}

/// The live entries of catalogues.
fn collected(
    alloc: Global,
    catalogues: &[Catalogue],
    use_fuzzy: bool,
) -> Result<Vec<Collected>, AllocError>
    ensures { IfOk result (λ inputs. HoldCatalogues use_fuzzy catalogues.now inputs.items) }
{
    let mut inputs = Vec::with_capacity(alloc, catalogues.len())?;
    for catalogue in catalogues {
        let store = store_of(alloc, catalogue.entries())?;
        inputs.push(Collected::of(store, use_fuzzy))?;
    }
    Ok(inputs)
}

/// Checks the messages that catalogues are compiled to, in the order of their joined list: that
/// there is a header; that it has a readable plural rule where an entry has a plural; that each
/// entry but the header has as many forms as the rule, and newlines at its ends where its msgid has
/// them; and that the rule's values at the counts from 0 to 1,000 are indices of forms, where an
/// entry has a plural. The first fault is reported with the input of its line, or input 0 where it
/// has none. `OutOfMemory`, with input 0, may come in place of any result.
pub fn profile_check(
    alloc: Global,
    catalogues: &[Catalogue],
    use_fuzzy: bool,
) -> Result<(), (u32, CheckFault)>
    requires { length catalogues.now < 2 ^ 32 }
    ensures { MatchResult result (λ _. AreChecked use_fuzzy catalogues.now None)
        (λ reported. (reported ≡ (0, CheckFault.OutOfMemory))
        ⊎ AreChecked use_fuzzy catalogues.now (Some reported)) }
{
    match collected(alloc, catalogues, use_fuzzy) {
        Ok(inputs) => check_collected(alloc, &inputs),
        Err(error) => Err((0, error.into())),
    }
}
