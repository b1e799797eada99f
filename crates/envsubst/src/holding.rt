//! The bytes that may begin a reference, held back until the next ones decide.
ghost use Rattle.std.specs.Prelude.{◌≡◌, ◌<◌, true, ◌∷◌, length, take, IfSome};
ghost use Rattle.envsubst.specs.Prelude.{is_undecided, is_begun_name};
ghost use Rattle.envsubst.specs.Internal.Holding.{ComesOut, IsStep, Ending, after_dollar};
ghost use Rattle.envsubst.specs.Internal.Sorted.{values_of_replacements};

use crate::reference::{LONGEST_NAME, begins_with, is_letter, is_name, is_name_byte, name_prefix};
use crate::replacements::Replacements;
use locale_names::len_before;

/// What is done first with the bytes held back and a piece of the text.
#[derive(Clone, Copy)]
pub(crate) enum Step<'a> {
    /// The piece's first byte is held back too.
    Hold,
    /// This text is written, so many bytes of the piece are taken, and none is held back any more.
    Write(&'a [u8], usize),
}

/// A begun reference: whether it has a brace, and its name so far.
fn begun(held: &[u8]) -> (bool, &[u8])
    requires some { 0 < length held.now }
    requires undecided { is_undecided held.now ≡ true }
    ensures bytes { held.now ≡ 36 ∷ after_dollar result.0 result.1.now }
    ensures name { is_begun_name result.1.now ≡ true }
{
    let after = &held[1..];
    if begins_with(b'{', after) {
        (true, &after[1..])
    } else {
        (false, after)
    }
}

/// The length of the begun reference at the beginning of a piece, if a byte follows that decides
/// about it. `None` where the piece doesn't begin with one, or ends with it.
fn begun_len(piece: &[u8]) -> Option<usize>
    ensures some { IfSome result (λ len. 0 < len) }
    ensures bound { IfSome result (λ len. len < length piece.now) }
    ensures undecided { IfSome result (λ len. is_undecided (take len piece.now) ≡ true) }
{
    if !begins_with(b'$', piece) {
        return None;
    }
    let start = if begins_with(b'{', &piece[1..]) { 2 } else { 1 };
    let name = name_prefix(&piece[start..]);
    let len = start + name.len();
    if len < piece.len() && (name.is_empty() || is_name(name)) {
        Some(len)
    } else {
        None
    }
}

/// What is done with the bytes held back, at the next byte: it is held too, or they come out as
/// they are, or a value comes out in their place, and with a brace the byte is taken.
#[inline(always)]
fn decide<'a>(replacements: &'a Replacements<'_>, held: &'a [u8], next: u8) -> Step<'a>
    requires some { 0 < length held.now }
    requires undecided { is_undecided held.now ≡ true }
    ensures { ComesOut (values_of_replacements replacements.now) held.now next result }
{
    let (is_braced, name) = begun(held);
    if name.is_empty() {
        if is_letter(next) {
            Step::Hold
        } else if next == b'{' && !is_braced {
            Step::Hold
        } else {
            Step::Write(held, 0)
        }
    } else if is_name_byte(next) {
        if name.len() < LONGEST_NAME {
            Step::Hold
        } else {
            Step::Write(held, 0)
        }
    } else if is_braced && next != b'}' {
        Step::Write(held, 0)
    } else {
        match replacements.value_for(name) {
            Some(value) => Step::Write(value, usize::from(is_braced)),
            None => Step::Write(held, 0),
        }
    }
}

/// What is done first with the bytes held back and a piece. A begun reference of the piece is
/// decided without being held, and the bytes before its first `$` are written.
#[inline(always)]
pub(crate) fn next_step<'a>(
    replacements: &'a Replacements<'_>,
    held: &'a [u8],
    piece: &'a [u8],
) -> Step<'a>
    requires some { 0 < length piece.now }
    requires undecided { is_undecided held.now ≡ true }
    ensures { IsStep (values_of_replacements replacements.now) held.now piece.now result }
{
    if !held.is_empty() {
        return decide(replacements, held, piece[0]);
    }
    if let Some(len) = begun_len(piece) {
        if let Step::Write(text, taken) = decide(replacements, &piece[..len], piece[len]) {
            return Step::Write(text, len + taken);
        }
    }
    match len_before(b'$', piece) {
        0 => Step::Hold,
        plain => Step::Write(&piece[..plain], plain),
    }
}

/// What the bytes held back become at the end of the text; `None` where they are copied.
pub(crate) fn ending<'a>(replacements: &Replacements<'a>, held: &[u8]) -> Option<&'a [u8]>
    requires { is_undecided held.now ≡ true }
    ensures { Ending (values_of_replacements replacements.now) held.now result }
{
    if held.is_empty() {
        return None;
    }
    let (is_braced, name) = begun(held);
    if is_braced {
        return None;
    }
    if name.is_empty() {
        return None;
    }
    replacements.value_for(name)
}
