//! Names and references ("Invoking the envsubst program" of the GNU gettext manual).
ghost use Rattle.std.specs.Prelude.{◌≡◌, ◌<◌, [], map, length, IfNone, IfSome, IfOk, OnErr, Err};
ghost use Rattle.std.specs.Option.{option_map};
ghost use Rattle.std.specs.List.{cons_option};
ghost use Rattle.envsubst.specs.Reference as spec;

use locale_names::len_before;
use runs::ToolFault;
use std::alloc::Global;

/// How many bytes a name has at most.
pub const LONGEST_NAME: usize = 255;

/// Whether a name may begin with this byte.
#[tactic(auto, unfolding(crate::specs::Reference::is_letter))]
pub(crate) fn is_letter(byte: u8) -> bool
    ensures { result ≡ spec.is_letter byte }
{
    byte.is_ascii_alphabetic() || byte == b'_'
}

/// Whether a name may go on with this byte.
#[tactic(auto, unfolding(crate::specs::Reference::is_name_byte))]
pub(crate) fn is_name_byte(byte: u8) -> bool
    ensures { result ≡ spec.is_name_byte byte }
{
    byte.is_ascii_alphanumeric() || byte == b'_'
}

/// Whether a run of name bytes is a name.
#[tactic(auto, unfolding(crate::specs::Reference::is_name))]
pub(crate) fn is_name(run: &[u8]) -> bool
    ensures { result ≡ spec.is_name run.now }
{
    match run {
        [] => false,
        [first, others @ ..] => is_letter(*first) && others.len() < LONGEST_NAME,
    }
}

/// Whether a text begins with this byte.
pub(crate) fn begins_with(byte: u8, text: &[u8]) -> bool
    ensures { result ≡ spec.begins_with byte text.now }
{
    text.first() == Some(&byte)
}

/// The longest run of name bytes at the beginning.
pub(crate) fn name_prefix(bytes: &[u8]) -> &[u8]
    ensures { result.now ≡ spec.name_prefix bytes.now }
{
    for (len, byte) in bytes.iter().enumerate() {
        if !is_name_byte(*byte) {
            return &bytes[..len];
        }
    }
    bytes
}

/// The name of the reference that a `$` begins, by the bytes after it.
#[tactic(auto, unfolding(crate::specs::Reference::reference_after, crate::specs::Reference::braced_reference, crate::specs::Reference::bare_reference))]
fn reference_name(after: &[u8]) -> Option<&[u8]>
    ensures { option_map (λ name. name.now) result
        ≡ option_map (λ r. r.name) (spec.reference_after after.now) }
{
    if begins_with(b'{', after) {
        let inner = &after[1..];
        let name = name_prefix(inner);
        let is_closed = begins_with(b'}', &inner[name.len()..]);
        (is_name(name) && is_closed).then_some(name)
    } else {
        let name = name_prefix(after);
        is_name(name).then_some(name)
    }
}

/// What stands after the first `$`.
fn after_first_dollar(text: &[u8]) -> Option<&[u8]>
    ensures none { IfNone result (spec.names_in text.now ≡ []) }
    ensures names { IfSome result (λ after. spec.names_in text.now
        ≡ cons_option (option_map (λ r. r.name) (spec.reference_after after.now)) (spec.names_in after.now)) }
    ensures shorter { IfSome result (λ after. length after.now < length text.now) }
{
    let plain = len_before(b'$', text);
    if plain < text.len() {
        Some(&text[plain + 1..])
    } else {
        None
    }
}

/// The names of the references in a text such as SHELL-FORMAT, in order, with repeats.
pub fn names(alloc: Global, format: &[u8]) -> Result<Vec<&[u8]>, ToolFault>
    ensures names { IfOk result (λ v. map (λ name. name.now) v.items ≡ spec.names_in format.now) }
    ensures memory { OnErr result (result ≡ Err ToolFault.OutOfMemory) }
{
    let mut names = Vec::new(alloc);
    let mut text = format;
    while let Some(after) = after_first_dollar(text) {
        text = after;
        if let Some(name) = reference_name(after) {
            names.push(name)?;
        }
    }
    Ok(names)
}

/// The names of the references in a text such as SHELL-FORMAT, one a line.
pub fn name_lines(alloc: Global, format: &[u8]) -> Result<Vec<u8>, ToolFault>
    ensures lines { IfOk result (λ lines. lines.items ≡ spec.name_lines format.now) }
    ensures memory { OnErr result (result ≡ Err ToolFault.OutOfMemory) }
{
    let names = names(alloc, format)?;
    let mut lines = Vec::new(alloc);
    for name in &names {
        lines.extend_from_slice(name)?;
        lines.push(b'\n')?;
    }
    Ok(lines)
}
