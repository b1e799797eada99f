//! The definitions of one message: which members of a group they are, and which of them is taken.

ghost use Rattle.std.specs.Prelude.{◌≡◌, ◌<◌, IfNone, IfSome, false, length, true};
ghost use Rattle.msgcat.specs.Prelude.{definitions, named_entries, is_kept, is_wanted, first_with};
ghost use Rattle.msgcat.specs.Internal.Merging.{has_part};

use crate::input::MergeOptions;
use po_entry::{EntryRef, has_translation};

/// An entry of one of several inputs, with that input's name.
#[derive(Drop)]
pub struct NamedEntry<'a> {
    /// The name of the input.
    pub name: &'a str,
    /// The entry.
    pub entry: EntryRef<'a>,
}

/// Whether messages with this many definitions are asked for.
pub(crate) fn is_wanted(options: &MergeOptions, count: usize) -> bool
    ensures { result ≡ is_wanted options.now count }
{
    let is_below = match options.less_than {
        Some(limit) => count < limit as usize,
        None => true,
    };
    (options.more_than as usize) < count && is_below && (!options.unique || count < 2)
}

/// The definitions of a group's message, where the message is kept: its live members, or all where
/// none is live.
pub(crate) fn kept_definitions<'a>(
    group: Vec<NamedEntry<'a>>,
    options: &MergeOptions,
) -> Option<Vec<NamedEntry<'a>>>
    ensures none { IfNone result (is_kept options.now (definitions (named_entries group.entry.items)) ≡ false) }
    ensures some { IfSome result (λ kept. (named_entries kept.items ≡ definitions (named_entries group.entry.items))
        × (is_kept options.now (named_entries kept.items) ≡ true)) }
{
    let mut definitions = group;
    if definitions.iter().any(|member| !member.entry.obsolete()) {
        definitions.retain(|member| !member.entry.obsolete());
    }
    let has_header = definitions
        .iter()
        .any(|definition| definition.entry.is_header());
    let is_kept = has_header || is_wanted(options, definitions.len());
    is_kept.then_some(definitions)
}

/// A part that some definitions have.
#[derive(Clone, Copy)]
pub(crate) enum Part {
    /// A translation: a first form that isn't empty.
    Translation,
    /// Previous texts.
    Previous,
    /// A plural of the msgid.
    Plural,
}

/// Whether the entry has the part.
pub(crate) fn has_part(entry: &EntryRef<'_>, part: Part) -> bool
    ensures { result ≡ has_part part entry.now }
{
    match part {
        Part::Translation => has_translation(entry),
        Part::Previous => {
            entry.previous_context().is_some()
                || entry.previous_id().is_some()
                || entry.previous_plural().is_some()
        }
        Part::Plural => entry.plural().is_some(),
    }
}

/// The first definition that has the part, or else the first.
pub(crate) fn first_with<'d, 'a>(definitions: &'d [NamedEntry<'a>], part: Part) -> &'d EntryRef<'a>
    requires { 0 < length definitions.now }
    ensures { result.now ≡ first_with (has_part part) (named_entries definitions.now) }
{
    let found = definitions
        .iter()
        .find(|definition| has_part(&definition.entry, part));
    &found.unwrap_or(&definitions[0]).entry
}
