//! The items that haven't been read yet, and the strings that stand first among them.

ghost use Rattle.std.specs.Prelude.{◌≡◌, ◌≢◌, ◌<◌, [], ◌∷◌, ◌++◌, ℕ, List, false, drop, length, IfErr, OnOk, MatchBool, MatchOption};
ghost use Rattle.po_syntax.specs.declared.item.Keyword.{Keyword};
ghost use Rattle.po_reader.specs.Prelude.{last_line, line_of, view, views};
ghost use Rattle.po_syntax.specs.Item.{Word, Str};
ghost use Rattle.po_reader.specs.Internal.Stage.{SoFar, In, Between};
ghost use Rattle.po_reader.specs.Internal.Turn as spec;
ghost use Rattle.po_reader.specs.Internal.Turn.{begins_word, begins_string, closed};
ghost use Rattle.po_reader.specs.Internal.Reads.{Rest, comes, line_at, Fails};

use po_syntax::{Item, Keyword, Marks, PoError, PoFault};
use std::marker::Model;

/// The items that are left to be read.
#[derive(Drop)]
pub(crate) struct Cursor<'i, 'a> {
    items: &'i [Item<'a>],
    /// The line of the text's last item, on which a fault at the end of the items is reported.
    end: u32,
}

impl<'i, 'a> Model for Cursor<'i, 'a> {
    ghost use Rattle.po_syntax.specs.Prelude.{views};
    ghost use Rattle.po_reader.specs.Internal.Reads.{Rest};

    ghost Value = { Rest };

    ghost view = { λ rest. record { items = views rest.items.now; end = rest.end } };
}

impl<'i, 'a> Cursor<'i, 'a> {
    /// All of these items, which are those of a whole text.
    pub(crate) fn of(items: &'i [Item<'a>]) -> Self
        ensures { result ≡ record { items = views items.now; end = last_line (views items.now) } }
    {
        Cursor {
            items,
            end: last_line(items),
        }
    }

    /// The first item, if one is left.
    pub(crate) fn first(&self) -> Option<&'i Item<'a>>
        ensures { MatchOption result (self.now.items ≡ [])
            (λ item. self.now.items ≡ view item.now ∷ drop 1 self.now.items) }
    {
        self.items.first()
    }

    /// The first item, if it is a keyword: with its marks and line.
    pub(crate) fn first_word(&self) -> Option<(Keyword, Marks, u32)>
        ensures { MatchOption result (begins_word self.now.items ≡ false)
            (λ word. self.now.items ≡ Word word.0 word.1 word.2 ∷ drop 1 self.now.items) }
    {
        match self.first() {
            Some(Item::Word(keyword, marks, line)) => Some((*keyword, *marks, *line)),
            _ => None,
        }
    }

    /// The first item, if it is a string: its bytes and marks.
    pub(crate) fn first_string(&self) -> Option<(&'i [u8], Marks)>
        ensures { MatchOption result (begins_string self.now.items ≡ false)
            (λ string. (line : ℕ) × (self.now.items ≡ Str string.0.now string.1 line ∷ drop 1 self.now.items)) }
    {
        match self.first() {
            Some(Item::Str(bytes, marks, _)) => Some((bytes.as_slice(), *marks)),
            _ => None,
        }
    }

    /// Whether none is left.
    pub(crate) fn is_empty(&self) -> bool
        ensures { MatchBool result (self.now.items ≡ []) (self.now.items ≢ []) }
    {
        self.first().is_none()
    }

    /// Goes past the first item.
    pub(crate) fn advance(&mut self)
        requires { 0 < length self.old.items }
        ensures rest { self.new ≡ record { items = drop 1 self.old.items; end = self.old.end } }
        ensures fewer { length self.new.items < length self.old.items }
    {
        let items: &'i [Item<'a>] = self.items;
        self.items = &items[1..];
    }

    /// This fault, on the line of the first item, or at the end of the items.
    pub(crate) fn refusal(&self, kind: PoFault) -> PoError
        ensures { result ≡ record { kind = kind; line = line_at self.now } }
    {
        let line = match self.first() {
            Some(item) => line_of(item),
            None => self.end,
        };
        PoError { kind, line }
    }
}

/// The line of the last item, and 0 where there is none.
#[tactic(auto, using(crate::proofs::ReaderSteps::last_at, crate::proofs::ReaderSteps::some_length))]
fn last_line(items: &[Item<'_>]) -> u32
    ensures { result ≡ last_line (views items.now) }
{
    match items.last() {
        Some(item) => line_of(item),
        None => 0,
    }
}

/// The line on which the item stands.
fn line_of(item: &Item<'_>) -> u32
    ensures { result ≡ line_of (view item.now) }
{
    match item {
        Item::Comment(_, _, line) | Item::Word(_, _, line) | Item::Str(_, _, line) => *line,
    }
}

/// The fault of a string whose marks are not those of its text: `MixedObsolete` where own lines of
/// an entry differ in their obsolete mark, else `BadOrder`.
fn stray_string(wanted: Marks, found: Marks) -> PoFault
    ensures fault { result ≡ spec.stray_string wanted found }
    ensures other { result ≢ PoFault.OutOfMemory }
{
    if wanted.previous || found.previous {
        PoFault::BadOrder
    } else {
        PoFault::MixedObsolete
    }
}

/// Takes the text of the strings that stand first, under these marks, and appends it.
pub(crate) fn take_strings(
    rest: &mut Cursor<'_, '_>,
    marks: Marks,
    out: &mut Vec<u8>,
) -> Result<(), PoError>
    ensures found { OnOk result ((text : List ℕ) × (out.new.items ≡ out.old.items ++ text)
        × ((read : SoFar) (keyword : Keyword) → comes (In read keyword marks false []) rest.old
        ≡ comes (Between (closed read keyword marks text)) rest.new)) }
    ensures fewer { OnOk result (length rest.new.items < length rest.old.items) }
    ensures fault { IfErr result (λ e. (read : SoFar) (keyword : Keyword)
        → Fails (In read keyword marks false []) rest.old e) }
{
    loop {
        let Some((bytes, found)) = rest.first_string() else {
            return Err(rest.refusal(PoFault::BadOrder));
        };
        if marks != found {
            return Err(rest.refusal(stray_string(marks, found)));
        }
        rest.advance();
        out.extend_from_slice(bytes)?;
        if rest.first_string().is_none() {
            return Ok(());
        }
    }
}
