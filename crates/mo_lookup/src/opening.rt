//! Opening a file: it is checked whole, and the plural rule of its header entry is read.

ghost use Rattle.std.specs.Prelude.{◌≡◌, ◌+◌, ◌^◌, ◌<◌, ◌≤◌, List, length, min, MatchResult, IsOk, IfOk, OnErr};
ghost use Rattle.mo_lookup.specs.Prelude.{AreRising, IsCatalogView, IsFirstFault, IsMoFile, Message, comparisons_before, expression_limit, header_text, keys, program_in, program_of, rule_in};
ghost use Rattle.mo_file.specs.declared.byte_order.Order.{Order};

use crate::forms::first_form;
use crate::messages::{Messages, ViewMessages};
use mo_file::{Meter, MoError, MoView};
use plural_rule::{EXPRESSION_LIMIT, Instruction, ParsedRule, Rule};
use std::cmp::Ordering;

/// The text of the header entry, which stands under the empty key and so first; empty where there
/// is none. Where there are messages this is one comparison.
#[inline(never)]
fn header_text<'a, M: Messages<'a>>(messages: &mut M) -> &'a [u8]
    requires keys { M.listed messages.old ≡ keys (M.file messages.old).messages }
    requires room { M.counted messages.old < 2 ^ 63 + length (M.file messages.old).messages }
    ensures text { result.now ≡ header_text (M.file messages.old).messages }
    ensures rising { AreRising (keys (M.file messages.old).messages) }
    ensures cost { M.counted messages.new ≡ M.counted messages.old + min 1 (length (M.file messages.old).messages) }
    ensures same_counter { M.counter messages.new ≡ M.counter messages.old }
{
    if messages.len() == 0 {
        return b"";
    }
    match messages.compare(0, None, b"") {
        Ordering::Equal => {
            let translation = messages.translation(0);
            &translation[first_form(translation, 0)]
        }
        _ => b"",
    }
}

/// The view of a file, and its header text. It is refused and counted as
/// [`Catalog::open`](crate::Catalog::open) says.
pub(crate) fn checked<'a>(
    bytes: &'a [u8],
    meter: &mut Meter,
) -> Result<(MoView<'a>, &'a [u8]), MoError>
    requires { meter.old < 2 ^ 63 }
    ensures exact { MatchResult result (λ read. (order : Order) × IsMoFile order bytes.now read.0.messages)
        (IsFirstFault bytes.now) }
    ensures only { (order : Order) (messages : List Message) → IsMoFile order bytes.now messages → IsOk result }
    ensures rising { IfOk result (λ read. AreRising (keys read.0.messages)) }
    ensures header { IfOk result (λ read. read.1.now ≡ header_text read.0.messages) }
    ensures cost { MatchResult result (λ read. meter.new ≡ meter.old + length read.0.messages)
        (λ fault. meter.new ≡ meter.old + comparisons_before fault) }
{
    let view = MoView::open(bytes, meter)?;
    let header = header_text(&mut ViewMessages { view: &view, meter });
    Ok((view, header))
}

/// Opens a file as [`Catalog::open`](crate::Catalog::open) does, with the program of its plural
/// rule at the beginning of `room`. Where the file is refused, `room` stays as it was.
///
/// It needs little of the machine's stack, whatever the file.
pub fn open_into<'a>(
    bytes: &'a [u8],
    meter: &mut Meter,
    room: &mut [Instruction; EXPRESSION_LIMIT],
) -> Result<(MoView<'a>, ParsedRule), MoError>
    requires { meter.old < 2 ^ 63 }
    ensures exact { MatchResult result (λ opened. (order : Order) × IsMoFile order bytes.now opened.0.messages)
        (IsFirstFault bytes.now) }
    ensures only { (order : Order) (messages : List Message) → IsMoFile order bytes.now messages → IsOk result }
    ensures view { IfOk result (λ opened. IsCatalogView opened.0.messages (rule_in opened.1 room.new)) }
    ensures program { IfOk result (λ opened. program_in opened.1 room.new ≡ program_of 0 (rule_in opened.1 room.new).tree) }
    ensures limit { IfOk result (λ opened. opened.1.instruction_count ≤ expression_limit) }
    ensures unchanged { OnErr result (room.new ≡ room.old) }
    ensures cost { MatchResult result (λ opened. meter.new ≡ meter.old + length opened.0.messages)
        (λ fault. meter.new ≡ meter.old + comparisons_before fault) }
{
    let (view, header) = checked(bytes, meter)?;
    let rule = Rule::parse_into(header, room);
    Ok((view, rule))
}
