//! The items of one line.

ghost use Rattle.std.specs.Prelude.{◌≢◌, IfErr, OnOk};
ghost use Rattle.po_syntax.specs.Internal.{shape_of, hash_shape, tilde_shape, comment_shape, AddsItems, AddsLent, IsShapeOf};
ghost use Rattle.po_syntax.specs.Prelude.{LineFault, TokensFault, HoldsItems, HoldsTokens};

use crate::fault::PoFault;
use crate::item::{CommentKind, Item, Marks};
use crate::quoted_string::quoted_string;
use crate::token::{keyword, skip_blanks};
use std::alloc::Global;

/// What a line is by its first bytes, with the text after them.
enum Shape<'a> {
    Comment(CommentKind, &'a [u8]),
    Tokens(Marks, &'a [u8]),
}

/// The comment, read after its `#`; none where `|` or `~` follows.
fn comment_shape(text: &[u8]) -> Option<Shape<'_>>
    ensures { IsShapeOf (comment_shape text.now) result }
{
    match text.split_first() {
        Some((b'.', rest)) => Some(Shape::Comment(CommentKind::Extracted, rest)),
        Some((b':', rest)) => Some(Shape::Comment(CommentKind::Reference, rest)),
        Some((b',', rest)) => Some(Shape::Comment(CommentKind::Flags, rest)),
        Some((b'|' | b'~', _)) => None,
        _ => Some(Shape::Comment(CommentKind::Translator, text)),
    }
}

/// The shape of a line, read after `#~`.
#[tactic(auto, unfolding(crate::specs::Internal::tilde_shape, crate::specs::Internal::obsolete_shape))]
fn tilde_shape(text: &[u8]) -> Option<Shape<'_>>
    ensures { IsShapeOf (tilde_shape text.now) result }
{
    if let Some((b'|', rest)) = text.split_first() {
        return Some(Shape::Tokens(Marks::of_previous(true), rest));
    }
    let text = skip_blanks(text);
    match text.split_first() {
        Some((b'#', rest)) => comment_shape(rest),
        _ => Some(Shape::Tokens(Marks::own(true), text)),
    }
}

/// The shape of a line; none if it is neither a comment nor a line of tokens.
#[tactic(auto, unfolding(crate::specs::Internal::first_shape, crate::specs::Internal::hash_shape))]
fn shape_of(line: &[u8]) -> Option<Shape<'_>>
    ensures { IsShapeOf (shape_of line.now) result }
{
    let text = skip_blanks(line);
    let Some((b'#', text)) = text.split_first() else {
        return Some(Shape::Tokens(Marks::own(false), text));
    };
    match text.split_first() {
        Some((b'|', rest)) => Some(Shape::Tokens(Marks::of_previous(false), rest)),
        Some((b'~', rest)) => tilde_shape(rest),
        _ => comment_shape(text),
    }
}

/// Appends the items of a line's tokens.
fn add_tokens<'a>(
    alloc: Global,
    items: &mut Vec<Item<'a>>,
    text: &'a [u8],
    marks: Marks,
    line: u32,
) -> Result<(), PoFault>
    ensures found { OnOk result
        (AddsItems (HoldsTokens marks line text.now) items.old.items items.new.items) }
    ensures lent { OnOk result (AddsLent text.now items.old.items items.new.items) }
    ensures fault { IfErr result (λ e. e ≢ PoFault.OutOfMemory → TokensFault text.now e) }
{
    let mut rest = text;
    loop {
        let text = skip_blanks(rest);
        let Some((first, inside)) = text.split_first() else {
            return Ok(());
        };
        if *first == b'"' {
            let (bytes, after) = quoted_string(alloc, inside)?;
            items.push(Item::Str(bytes, marks, line))?;
            rest = after;
        } else {
            let (word, after) = keyword(text)?;
            items.push(Item::Word(word, marks, line))?;
            rest = after;
        }
    }
}

/// Appends the items of the line with this number.
pub(crate) fn add_line<'a>(
    alloc: Global,
    items: &mut Vec<Item<'a>>,
    text: &'a [u8],
    line: u32,
) -> Result<(), PoFault>
    ensures found { OnOk result
        (AddsItems (HoldsItems line text.now) items.old.items items.new.items) }
    ensures lent { OnOk result (AddsLent text.now items.old.items items.new.items) }
    ensures fault { IfErr result (λ e. e ≢ PoFault.OutOfMemory → LineFault text.now e) }
{
    match shape_of(text) {
        None => Err(PoFault::BadToken),
        Some(Shape::Tokens(marks, rest)) => add_tokens(alloc, items, rest, marks, line),
        Some(Shape::Comment(kind, rest)) => {
            let returns = rest.iter().rev().take_while(|b| **b == b'\r').count();
            let text = rest.split_at(rest.len() - returns).0;
            items.push(Item::Comment(kind, text, line))?;
            Ok(())
        }
    }
}
