//! What `--profile-check` finds wrong with the messages that inputs are compiled to.
ghost use Rattle.std.specs.Prelude.{◌≡◌, ◌⊎◌, ◌^◌, ◌<◌, None, Some, IfErr, OnOk, find, length, option_map};
ghost use Rattle.mo_file.specs.Prelude.{forms};
ghost use Rattle.po_compile.specs.Prelude.{OfAllInputs};
ghost use Rattle.msgfmt.specs.Prelude.{AreChecked};
ghost use Rattle.msgfmt.specs.Profile as Spec;
ghost use Rattle.msgfmt.specs.declared.profile.CheckFault.TheVariants.{OutOfMemory};

use mo_file::{first_part, key_parts, original_parts, split_form};
use plural_rule::{Reason, Rule, Source};
use po_compile::laws::texts_come_back;
use po_compile::{Collected, CompiledMessage, compiled_messages};
use std::alloc::{AllocError, Global};
use thiserror::Error;

/// What `--profile-check` finds wrong with the messages that are compiled.
#[derive(Clone, Copy, Debug, PartialEq, Eq, Error)]
pub enum CheckFault {
    /// There is no header.
    #[error("no header")]
    NoHeader,
    /// The message at this line has a plural, and the header has no readable rule, for this reason.
    #[error("no readable plural rule")]
    NoRule(u32, Reason),
    /// The message at this line has another number of plural forms than the rule.
    #[error("wrong number of plural forms")]
    FormCount(u32),
    /// At this line the plural or a form begins with a newline where the msgid doesn't, or the
    /// other way round.
    #[error("first newline differs")]
    LeadingNewline(u32),
    /// At this line the plural or a form ends with a newline where the msgid doesn't, or the other
    /// way round.
    #[error("last newline differs")]
    TrailingNewline(u32),
    /// The rule divides by 0 at this count.
    #[error("plural rule undefined for {0}")]
    Undefined(u64),
    /// The rule's value at this count is no index of a plural form.
    #[error("plural rule too large for {0}")]
    IndexOutside(u64),
    /// An allocation failed.
    #[error("out of memory")]
    OutOfMemory,
}

impl From<AllocError> for CheckFault {
    ghost from_gives = { λ _ fault. fault ≡ OutOfMemory };

    fn from(_error: AllocError) -> CheckFault {
        CheckFault::OutOfMemory
    }
}

/// At how many counts, from 0 on, a rule's values are checked.
const CHECKED_COUNTS: u64 = 1001;

/// Whether the entry of a message has a plural.
fn is_plural(message: &CompiledMessage<'_>) -> bool
    ensures { result ≡ Spec.is_plural (Spec.checked_message message.now) }
{
    original_parts(message.original).1.is_some()
}

/// Whether the entry of a message is the header.
fn is_header(message: &CompiledMessage<'_>) -> bool
    ensures { result ≡ Spec.is_header_entry (Spec.checked_message message.now) }
{
    let (key, _) = original_parts(message.original);
    let (context, id) = key_parts(key);
    context.is_none() && id.is_empty()
}

/// How many forms a translation has.
fn form_count(translation: &[u8]) -> usize
    ensures { result ≡ length (forms translation.now) }
{
    let mut count = 1;
    let mut last = translation;
    while let Some((_, rest)) = split_form(last) {
        count += 1;
        last = rest;
    }
    count
}

/// An end of a text.
#[derive(Clone, Copy)]
pub(crate) enum End {
    /// Where the text begins.
    Beginning,
    /// Where the text ends.
    Ending,
}

/// Whether a text has a newline at this end.
fn has_newline(end: End, text: &[u8]) -> bool
    ensures { result ≡ Spec.has_newline end text.now }
{
    match end {
        End::Beginning => text.first().is_some_and(|byte| *byte == b'\n'),
        End::Ending => text.last().is_some_and(|byte| *byte == b'\n'),
    }
}

/// Whether the plural or a form differs from the msgid in having a newline at this end.
fn differs_from_msgid(end: End, message: &CompiledMessage<'_>) -> bool
    ensures { result ≡ Spec.differs_from_msgid end (Spec.checked_message message.now).entry }
{
    let (key, plural) = original_parts(message.original);
    let (_, id) = key_parts(key);
    let wanted = has_newline(end, id);
    if plural.is_some_and(|plural| has_newline(end, plural) != wanted) {
        return true;
    }
    let mut last = message.translation;
    while let Some((form, rest)) = split_form(last) {
        if has_newline(end, form) != wanted {
            return true;
        }
        last = rest;
    }
    has_newline(end, last) != wanted
}

/// What is wrong with a message but the header's, with its input.
fn entry_fault(nplurals: u64, message: &CompiledMessage<'_>) -> Option<(u32, CheckFault)>
    ensures { result ≡ Spec.entry_fault nplurals (Spec.checked_message message.now) }
{
    let line = message.line;
    let fault = if is_header(message) {
        return None;
    } else if is_plural(message) && form_count(message.translation) as u64 != nplurals {
        CheckFault::FormCount(line)
    } else if differs_from_msgid(End::Beginning, message) {
        CheckFault::LeadingNewline(line)
    } else if differs_from_msgid(End::Ending, message) {
        CheckFault::TrailingNewline(line)
    } else {
        return None;
    };
    Some((message.input, fault))
}

/// The fault of the first count below `end` at which a rule has no value, or one that is no index
/// of a form.
#[tactic(auto, using(crate::proofs::ProfileFaults::first_some_range), unfolding(crate::specs::Profile::counts_below))]
fn first_count_fault(rule: &Rule, end: u64) -> Option<(u32, CheckFault)>
    ensures { result ≡ Spec.first_some (Spec.count_fault rule.now) (Spec.counts_below end) }
{
    for count in 0..end {
        let fault = match rule.eval(count).0 {
            None => CheckFault::Undefined(count),
            Some(index) if index < rule.nplurals() => continue,
            Some(_) => CheckFault::IndexOutside(count),
        };
        return Some((0, fault));
    }
    None
}

/// The message of the first header.
fn header_of<'m, 'b>(messages: &'m [CompiledMessage<'b>]) -> Option<&'m CompiledMessage<'b>>
    ensures { option_map (λ m. Spec.checked_message m.now) result
        ≡ find Spec.is_header_entry (Spec.checked_messages messages.now) }
{
    messages.iter().find(|message| is_header(message))
}

/// The first message of an entry with a plural.
fn first_plural<'m, 'b>(messages: &'m [CompiledMessage<'b>]) -> Option<&'m CompiledMessage<'b>>
    ensures { option_map (λ m. Spec.checked_message m.now) result
        ≡ find Spec.is_plural (Spec.checked_messages messages.now) }
{
    messages.iter().find(|message| is_plural(message))
}

/// The first fault of messages with a header, by its rule: where that isn't readable, the first
/// message with a plural has one.
#[inline(never)]
fn first_fault(rule: &Rule, messages: &[CompiledMessage<'_>]) -> Option<(u32, CheckFault)>
    ensures { result ≡ Spec.first_fault (Spec.checked_messages messages.now) rule.now }
{
    let plural = first_plural(messages);
    if let (Source::Default(reason), Some(plural)) = (rule.source(), plural) {
        return Some((plural.input, CheckFault::NoRule(plural.line, reason)));
    }
    for message in messages {
        if let Some(fault) = entry_fault(rule.nplurals(), message) {
            return Some(fault);
        }
    }
    match plural {
        Some(_) => first_count_fault(rule, CHECKED_COUNTS),
        None => None,
    }
}

/// The first fault of the messages that are compiled, in text order. A rule takes 33 KB of the
/// stack, so it is read in its place.
#[inline(never)]
fn check_messages(messages: &[CompiledMessage<'_>]) -> Option<(u32, CheckFault)>
    ensures { Spec.IsChecked (Spec.checked_messages messages.now) result }
{
    let Some(header) = header_of(messages) else {
        return Some((0, CheckFault::NoHeader));
    };
    let mut rule = Rule::of_no_header();
    rule.reparse(first_part(header.translation));
    first_fault(&rule, messages)
}

/// Checks the messages that inputs are compiled to, in the order of their joined list: that there
/// is a header; that it has a readable plural rule where an entry has a plural; that each entry but
/// the header has as many forms as the rule, and newlines at its ends where its msgid has them; and
/// that the rule's values at the counts from 0 to 1,000 are indices of forms, where an entry has a
/// plural. The first fault is reported with the input of its line, or input 0 where it has none.
/// `OutOfMemory`, with input 0, may come in place of any result.
#[tactic(auto, using(crate::proofs::CheckedMessages::checked))]
pub fn check_collected(alloc: Global, inputs: &[Collected]) -> Result<(), (u32, CheckFault)>
    requires { length inputs.now < 2 ^ 32 }
    ensures fit { OnOk result (OfAllInputs inputs.now (λ use_fuzzy catalogues. AreChecked use_fuzzy catalogues None)) }
    ensures unfit { IfErr result (λ reported. (reported ≡ (0, CheckFault.OutOfMemory))
        ⊎ OfAllInputs inputs.now (λ use_fuzzy catalogues. AreChecked use_fuzzy catalogues (Some reported))) }
{
    texts_come_back();
    let messages = match compiled_messages(alloc, inputs) {
        Ok(messages) => messages,
        Err(error) => return Err((0, error.into())),
    };
    match check_messages(&messages) {
        None => Ok(()),
        Some(reported) => Err(reported),
    }
}
