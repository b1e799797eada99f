//! The lines of a text, and their items: those of some entries at a time, or of a part of a long
//! head.

ghost use Rattle.std.specs.Prelude.{◌≡◌, ◌≢◌, ◌↔◌, ◌+◌, ◌<◌, ◌≤◌, ◌^◌, ◌∷◌, [], take, drop, List, ℕ, All, length, vec_len, true, false, IfOk, IfErr, IfSome, MatchOption, OnOk, OnErr, IsTrue};
ghost use Rattle.po_syntax.specs.declared.fault.PoFault.{PoFault};
ghost use Rattle.po_syntax.specs.Prelude.{IsCleanLine, IsFaultOf, LinesLeft, SpellsLeft, LeftStops, AreOfText, lines_len, lines_of_rest, BeginsAnew, EndsInComment, EndsPiece, EndsTranslation, IsCommentItem, IsPiece, IsString, IsTranslationWord, HoldsText, IsText, TextItem, view, views, LendsUtf8, LinesStop, SpellsText, TextFault, line_number, lines_of};
ghost use Rattle.po_syntax.specs.Internal.PieceEnd.{IsCut};

use crate::fault::{PoError, PoFault};
use crate::item::{Item, Keyword};
use crate::line::add_line;
use memchr::memchr;
use simdutf8::compat::from_utf8;
use simdutf8::is_utf8;
use std::alloc::{AllocError, Global};
use std::marker::Model;

/// A PO text that is read in pieces, each of which ends where an entry does, or, if it is long, in
/// an entry's head: what is left of it to be read, and the number of the first line of that,
/// counted from 1 (manual, "The Format of PO Files").
#[derive(Drop)]
pub struct Pieces<'a> {
    text: &'a [u8],
    rest: Option<&'a [u8]>,
    line: u32,
}

impl<'a> Model for Pieces<'a> {
    ghost Value = { LinesLeft };

    ghost view = { λ p. record { text = p.text.now; number = p.line; lines = lines_of_rest p.rest } };

    ghost invariant = { λ p. AreOfText (record { text = p.text.now; number = p.line; lines = lines_of_rest p.rest }) };
}

/// Where a piece ends.
#[derive(Clone, Copy)]
struct PieceEnd<'a> {
    /// What stands after it.
    rest: Option<&'a [u8]>,
    /// The number of the line after it.
    line: u32,
    /// How many bytes it has, with an LF after each line.
    len: usize,
}

/// The longest text that is read, in bytes.
const MAX_LEN: usize = 2_147_483_647;

/// From how many bytes on a piece can end after a comment: so much of an entry's head is read at a
/// time.
const LONG: usize = 65_536;

/// For how many items a piece has room at first.
const FIRST_ROOM: usize = 64;

/// A fault at an index of the text, on whose line, counted from 1, it is reported.
fn fault_at(text: &[u8], index: usize, kind: PoFault) -> PoError
    requires inside { index ≤ length text.now }
    requires small { length text.now < 2 ^ 31 }
    ensures { result ≡ record { kind = kind; line = line_number text.now index } }
{
    let feeds = text
        .split_at(index)
        .0
        .iter()
        .filter(|b| **b == b'\n')
        .count();
    PoError {
        kind,
        line: 1 + feeds as u32,
    }
}

/// Whether a text is UTF-8 without NUL.
fn is_text(text: &[u8]) -> bool
    ensures { IsTrue result ↔ IsText text.now }
{
    is_utf8(text) && memchr(0, text).is_none()
}

/// The first fault of a text's bytes: at the first one that isn't UTF-8, else at the first NUL.
#[tactic(auto, using(crate::proofs::Searches::text_faults))]
fn byte_fault(text: &[u8]) -> Option<PoError>
    requires { length text.now < 2 ^ 31 }
    ensures { MatchOption result (IsText text.now) (λ e. TextFault text.now e.kind e.line) }
{
    if let Err(error) = from_utf8(text) {
        return Some(fault_at(text, error.valid_up_to(), PoFault::NotUtf8));
    }
    let index = memchr(0, text)?;
    Some(fault_at(text, index, PoFault::ForbiddenByte))
}

/// Cuts off the first line: its text, and what stands after its LF, if it has one.
#[tactic(auto, using(crate::proofs::Searches::one_line, crate::proofs::Searches::line_cut))]
fn first_line(text: &[u8]) -> (&[u8], Option<&[u8]>)
    ensures cut { MatchOption result.1 (lines_of text.now ≡ result.0.now ∷ [])
        (λ rest. lines_of text.now ≡ result.0.now ∷ lines_of rest.now) }
    ensures within { length result.0.now ≤ length text.now }
    ensures less { IfSome result.1 (λ rest. length result.0.now + length rest.now < length text.now) }
{
    let Some(end) = memchr(b'\n', text) else {
        return (text, None);
    };
    let (line, rest) = text.split_at(end);
    (line, Some(rest.split_at(1).1))
}

/// Whether an item is the keyword of a translation.
fn is_translation_word(item: &Item<'_>) -> bool
    ensures { IsTrue result ↔ IsTranslationWord (view item.now) }
{
    matches!(item, Item::Word(Keyword::MsgStr | Keyword::MsgStrAt(_), ..))
}

/// How many items there are before the strings with which they end.
#[tactic(auto, using(crate::proofs::PieceLines::first_at, crate::proofs::PieceLines::strings_more))]
fn before_strings(items: &[Item<'_>]) -> usize
    ensures within { result ≤ length items.now }
    ensures strings { All IsString (drop result (views items.now)) }
    ensures last { (before : ℕ) (item : TextItem) (strings : List TextItem) → before + 1 ≡ result
        → drop before (views items.now) ≡ item ∷ strings → IsString item → ⊥ }
{
    let mut count = items.len();
    while count > 0 && matches!(items[count - 1], Item::Str(..)) {
        count -= 1;
    }
    count
}

/// Whether the items end with a translation: its keyword and strings.
fn ends_translation(items: &[Item<'_>]) -> bool
    ensures { IsTrue result ↔ EndsTranslation (views items.now) }
{
    let count = before_strings(items);
    if count == 0 {
        return false;
    }
    count < items.len() && is_translation_word(&items[count - 1])
}

/// Whether there is a first item, and no entry goes on with it after its last string.
fn begins_anew(items: &[Item<'_>]) -> bool
    ensures { IsTrue result ↔ BeginsAnew (views items.now) }
{
    match items.first() {
        Some(Item::Comment(..)) => true,
        Some(Item::Word(keyword, ..)) => !matches!(keyword, Keyword::MsgStrAt(_)),
        _ => false,
    }
}

/// Whether an item is a comment.
fn is_comment(item: &Item<'_>) -> bool
    ensures { IsTrue result ↔ IsCommentItem (view item.now) }
{
    matches!(item, Item::Comment(..))
}

/// Whether the last item is a comment.
fn ends_in_comment(items: &[Item<'_>]) -> bool
    ensures { IsTrue result ↔ EndsInComment (views items.now) }
{
    match items.last() {
        Some(item) => is_comment(item),
        None => false,
    }
}

/// Whether a piece of so many bytes can end before the item of this index: with the items before
/// it, and before an item with which no entry goes on after its last string.
fn can_end(items: &[Item<'_>], index: usize, len: usize) -> bool
    requires { index ≤ length items.now }
    ensures { IsTrue result ↔ (EndsPiece len (take index (views items.now))
        × BeginsAnew (drop index (views items.now))) }
{
    let (before, after) = items.split_at(index);
    begins_anew(after) && (ends_translation(before) || (len >= LONG && ends_in_comment(before)))
}

impl<'a> Pieces<'a> {
    /// The whole text, of which nothing is read yet. Refused with `TooLarge`, without a line, above
    /// 2,147,483,647 bytes.
    #[tactic(auto, using(crate::proofs::Searches::text_faults))]
    pub fn of(text: &'a [u8]) -> Result<Pieces<'a>, PoError>
        ensures found { IfOk result (λ left. (items : List TextItem) → SpellsLeft left items
            → SpellsText text.now items) }
        ensures stops { IfOk result (λ left. (fault : PoFault) (line : ℕ) → LeftStops left fault line
            → TextFault text.now fault line) }
        ensures fault { IfErr result (λ e. TextFault text.now e.kind e.line) }
        ensures memory { IfErr result (λ e. e.kind ≢ PoFault.OutOfMemory) }
    {
        if text.len() > MAX_LEN {
            return Err(PoError {
                kind: PoFault::TooLarge,
                line: 0,
            });
        }
        let rest = text.strip_prefix(b"\xef\xbb\xbf").unwrap_or(text);
        Ok(Pieces {
            text,
            rest: Some(rest),
            line: 1,
        })
    }

    /// The lines that are left once more.
    pub fn copy(&self) -> Pieces<'a>
        ensures { result ≡ self.now }
    {
        Pieces {
            text: self.text,
            rest: self.rest,
            line: self.line,
        }
    }

    /// Whether no line is left.
    #[tactic(auto, using(crate::proofs::PieceTexts::some_left))]
    pub fn are_over(&self) -> bool
        ensures over { result ≡ true → self.now.lines ≡ [] }
        ensures some { result ≡ false → self.now.lines ≢ [] }
    {
        self.rest.is_none()
    }

    /// The items of the next piece: the fewest whole lines of at least this many bytes at whose end
    /// an entry ends, as the next line begins another; or all that is left. From 65,536 bytes on a
    /// piece ends after a comment too, if what follows that is no string and no plural form.
    ///
    /// The bytes of a piece are tested with it. Where it holds one that isn't UTF-8, or a NUL, or a
    /// line with a fault, the whole text is refused, for the first of these in it: with `NotUtf8`,
    /// with `ForbiddenByte`, or with the leftmost fault of the first line that has one. Then, and
    /// where it is refused with `OutOfMemory`, as much is left as before.
    pub fn next(&mut self, alloc: Global, size: usize) -> Result<Vec<Item<'a>>, PoError>
        ensures piece { IfOk result (λ items. IsPiece size self.old self.new (views items.items)) }
        ensures whole { 2 ^ 31 < size → OnOk result (self.new.lines ≡ []) }
        ensures hold { IfOk result (λ items. All HoldsText (views items.items)) }
        ensures lent { IfOk result (λ items. All LendsUtf8 items.items) }
        ensures few { IfOk result (λ items. vec_len items ≤ 2 ^ 31) }
        ensures fault { IfErr result (IsFaultOf (LeftStops self.old)) }
        ensures unchanged { OnErr result (self.new ≡ self.old) }
    {
        let mut items = Vec::with_capacity(alloc, FIRST_ROOM)?;
        let end = match self.add_piece(alloc, size, &mut items) {
            Ok(end) => end,
            Err(error) => return Err(self.first_fault(error)),
        };
        if !self.begins_with_text(end.len) {
            return Err(byte_fault(self.text).unwrap());
        }
        *self = Pieces {
            text: self.text,
            rest: end.rest,
            line: end.line,
        };
        Ok(items)
    }

    /// Whether the first lines that are left, of so many bytes with an LF after each, are UTF-8
    /// without NUL.
    fn begins_with_text(&self, len: usize) -> bool
        ensures { (count : ℕ) → len ≡ lines_len (take count self.now.lines)
            → (IsTrue result ↔ All IsCleanLine (take count self.now.lines)) }
    {
        let rest = self.rest.unwrap_or(&[]);
        is_text(rest.split_at(len.min(rest.len())).0)
    }

    /// The first fault of the text, if this is that of the lines that are left; or out of memory.
    fn first_fault(&self, error: PoError) -> PoError
        requires { IsFaultOf (LinesStop self.now.number self.now.lines) error }
        ensures { IsFaultOf (LeftStops self.now) result }
    {
        match error.kind {
            PoFault::OutOfMemory => error,
            _ => byte_fault(self.text).unwrap_or(error),
        }
    }

    /// Adds the items of the next piece to an empty list, as `next` says, but doesn't test its
    /// bytes. Returns where the piece ends.
    fn add_piece(
        &self,
        alloc: Global,
        size: usize,
        items: &mut Vec<Item<'a>>,
    ) -> Result<PieceEnd<'a>, PoError>
        requires { items.old.items ≡ [] }
        ensures cut { IfOk result (λ end. (cut : IsCut size end.len self.now
            (record { text = self.now.text; number = end.line; lines = lines_of_rest end.rest }) (views items.new.items))
            × (All IsCleanLine (take cut.read.count self.now.lines) → All LendsUtf8 items.new.items)) }
        ensures fault { IfErr result (IsFaultOf (LinesStop self.now.number self.now.lines)) }
    {
        let mut rest = self.rest;
        let mut line = self.line;
        let mut len = 0;
        while let Some(text) = rest {
            let (first, after) = first_line(text);
            let count = items.len();
            match add_line(alloc, items, first, line) {
                Ok(()) => {}
                Err(PoFault::OutOfMemory) => return Err(AllocError.into()),
                Err(kind) => return Err(PoError { kind, line }),
            }
            if len >= size && can_end(items, count, len) {
                items.truncate(count);
                break;
            }
            rest = after;
            line += 1;
            len += first.len() + 1;
        }
        Ok(PieceEnd { rest, line, len })
    }
}

/// Reads the items of a PO text (manual, "The Format of PO Files").
///
/// Refusals, the first that holds: `TooLarge`, without a line, above 2,147,483,647 bytes; `NotUtf8`
/// at the first byte that is not; `ForbiddenByte` at the first NUL; then the leftmost fault of the
/// first line that has one: `BadToken`, `BadEscape`, `ForbiddenByte` for an escape of value 0,
/// `BadPluralIndex` for an index above 4,294,967,295, or `UnterminatedString` at an opening quote.
/// `OutOfMemory`, without a line, may come in place of any result.
pub fn items(alloc: Global, text: &[u8]) -> Result<Vec<Item<'_>>, PoError>
    ensures found { IfOk result (λ items. SpellsText text.now (views items.items)) }
    ensures lent { IfOk result (λ items. All LendsUtf8 items.items) }
    ensures fault { IfErr result (IsFaultOf (TextFault text.now)) }
    ensures few { IfOk result (λ items. vec_len items ≤ length text.now) }
{
    let mut pieces = Pieces::of(text)?;
    pieces.next(alloc, usize::MAX)
}
