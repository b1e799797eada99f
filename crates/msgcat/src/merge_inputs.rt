//! The entries of several inputs in one store, and what those of a message are merged to.

ghost use Rattle.std.specs.Prelude.{◌≡◌, ◌<◌, ◌∷◌, [], IfErr, IfOk, IfSome, List, ℕ, get_or, length, option_to_list};
ghost use Rattle.msgcat.specs.Prelude.{AreReadInputs, HoldInputs, IsCatalogueEntry, IsMergeFault, Named, all_entries, entry_messages, first_ones, group_numbers, groups, merged_entry, merged_messages, messages, name_of_first, named_entries, unnamed};
ghost use Rattle.po_entry.specs.Prelude.{same_message};
ghost use Rattle.msgcat.specs.Internal.Inputs.{name_of};
ghost use Rattle.msgcat.specs.declared.input.MergeOptions as asked;

use crate::definition::{NamedEntry, is_wanted, kept_definitions};
use crate::input::{MergeOptions, ReadInput};
use crate::merging::merged_entry;
use po_entry::{EntryRef, Store};
use po_syntax::PoError;
use std::alloc::{AllocError, Global};

/// The entries of several inputs in one store, linked by their messages.
#[derive(Drop)]
pub struct MergeInputs<'a> {
    store: Store,
    inputs: Vec<ReadInput<'a>>,
    links: Links,
}

/// Which entries are of one message, by their indexes.
#[derive(Drop)]
pub(crate) struct Links {
    /// For each message the index of its first entry; where it has none, how many entries there
    /// are.
    pub(crate) firsts: Vec<usize>,
    /// For each entry the index of the next one of its message; where there is none, how many
    /// entries there are.
    pub(crate) next: Vec<usize>,
}

/// The name of the input that has the entry with this index among those of all inputs.
fn name_at<'a>(inputs: &[ReadInput<'a>], index: usize) -> &'a str
    ensures { (read : List Named) → AreReadInputs read inputs.now
        → index < length (all_entries read) → result.now ≡ name_of read index }
{
    // No input from `end` on begins at the entry or before it.
    let (mut first, mut end) = (0, inputs.len());
    while end - first > 1 {
        let middle = first + (end - first) / 2;
        if inputs[middle].start <= index {
            first = middle;
        } else {
            end = middle;
        }
    }
    if first < inputs.len() {
        return inputs[first].name;
    }
    ""
}

impl<'a> MergeInputs<'a> {
    /// Links the entries of a store, which are those of the inputs in their order, by the numbers
    /// of their messages. Refused only where an allocation failed.
    pub fn of(
        alloc: Global,
        store: Store,
        inputs: Vec<ReadInput<'a>>,
        numbers: &[usize],
        count: usize,
    ) -> Result<MergeInputs<'a>, AllocError>
        requires numbers { numbers.now ≡ group_numbers same_message (entry_messages store) }
        requires count { count ≡ length (first_ones same_message (entry_messages store)) }
        ensures { IfOk result (λ held. (read : List Named) → AreReadInputs read inputs.entry.items
            → store ≡ unnamed (all_entries read) → HoldInputs read held) }
    {
        let len = numbers.len();
        let mut firsts = vec![in alloc; len; count]?;
        let mut next = vec![in alloc; len; len]?;
        for done in 0..len {
            let index = len - 1 - done;
            let number = numbers[index];
            next[index] = firsts[number];
            firsts[number] = index;
        }
        Ok(MergeInputs {
            store,
            inputs,
            links: Links { firsts, next },
        })
    }

    /// The name of the first input; empty where there is none.
    pub fn first_name(&self) -> &'a str
        ensures { (read : List Named) → HoldInputs read self.now → result.now ≡ name_of_first read }
    {
        match self.inputs.first() {
            Some(input) => input.name,
            None => "",
        }
    }

    /// How many messages there are.
    pub fn message_count(&self) -> usize
        ensures { (read : List Named) → HoldInputs read self.now → result ≡ length (messages read) }
    {
        self.links.firsts.len()
    }

    /// Whether what a message is merged to is obsolete, as it is where none of its entries is live.
    /// Messages are numbered from 0 in the order in which they first appear.
    pub fn is_obsolete(&self, number: usize) -> bool
        requires { (read : List Named) × HoldInputs read self.now × (number < length (messages read)) }
        ensures { (read : List Named) (options : asked.MergeOptions) → HoldInputs read self.now
            → number < length (messages read)
            → result ≡ (merged_entry options (get_or (messages read) number [])).obsolete }
    {
        let mut index = self.links.firsts[number];
        while index < self.links.next.len() {
            if !self.store.get(index).obsolete() {
                return false;
            }
            index = self.links.next[index];
        }
        true
    }

    /// The entries of a message.
    fn group(&self, alloc: Global, number: usize) -> Result<Vec<NamedEntry<'_>>, AllocError>
        requires { (read : List Named) × HoldInputs read self.now × (number < length (messages read)) }
        ensures { IfOk result (λ group. (read : List Named) → HoldInputs read self.now → number < length (messages read)
            → named_entries group.items ≡ get_or (groups (all_entries read)) number []) }
    {
        let mut group = Vec::new(alloc);
        let mut index = self.links.firsts[number];
        while index < self.links.next.len() {
            group.push(NamedEntry {
                name: name_at(&self.inputs, index),
                entry: self.store.get(index),
            })?;
            index = self.links.next[index];
        }
        Ok(group)
    }

    /// What a message is merged to, by its number, if it is kept: its only definition itself, or
    /// what several are merged to, which is added to `merged`. With the comments, references and
    /// flags of all; translations that differ are joined, each under the name of its input. With
    /// `use_first` the first translation is taken, with its comments, references and flags. Refused
    /// with `ForeignCharset`, without a line, for a merged header whose charset isn't admitted, and
    /// with `OutOfMemory`. (GNU gettext manual, "Invoking the msgcat Program".)
    pub fn merge_message<'m>(
        &'m self,
        alloc: Global,
        options: &MergeOptions,
        number: usize,
        merged: &'m mut Store,
    ) -> Result<Option<EntryRef<'m>>, PoError>
        requires { (read : List Named) × HoldInputs read self.now × (number < length (messages read)) }
        ensures merged { IfOk result (λ entry. (read : List Named) → HoldInputs read self.now
            → number < length (messages read)
            → option_to_list entry ≡ merged_messages options.now (get_or (messages read) number [] ∷ [])) }
        ensures valid { IfOk result (λ entry. IfSome entry IsCatalogueEntry) }
        ensures fault { IfErr result (λ error. (read : List Named) → HoldInputs read self.now
            → number < length (messages read)
            → IsMergeFault (merged_messages options.now (get_or (messages read) number [] ∷ [])) error) }
    {
        let first = self.links.firsts[number];
        if self.links.next[first] >= self.links.next.len() {
            let entry = self.store.get(first);
            if entry.is_header() || is_wanted(options, 1) {
                return Ok(Some(entry));
            }
            return Ok(None);
        }
        let group = self.group(alloc, number)?;
        match kept_definitions(group, options) {
            Some(definitions) => Ok(Some(merged_entry(alloc, options, definitions, merged)?)),
            None => Ok(None),
        }
    }
}
