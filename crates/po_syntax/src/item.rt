//! The items of a PO text: comments, keywords and strings, each with its line.

ghost use Rattle.std.specs.Prelude.{◌≡◌, ◌↔◌, All, IsTrue, IsUtf8};
ghost use Rattle.po_syntax.specs.Prelude.{OfString, spelt_bytes, views, LendsUtf8, owns_utf8, own_marks, previous_marks};

use simdutf8::is_utf8;

/// The keyword that a word of a PO text is (manual, "The Format of PO Files").
#[derive(Clone, Copy, Debug, PartialEq, Eq)]
pub enum Keyword {
    /// `msgctxt`: a context follows.
    MsgCtxt,
    /// `msgid`: a msgid follows.
    MsgId,
    /// `msgid_plural`: the plural of a msgid follows.
    MsgIdPlural,
    /// `msgstr` without an index: the only form follows.
    MsgStr,
    /// `msgstr[i]`: the plural form with this index, counted from 0, follows.
    MsgStrAt(u32),
}

/// What a comment is for, by the character after its `#`.
#[derive(Clone, Copy, Debug, PartialEq, Eq)]
pub enum CommentKind {
    /// `#` at the line's end, or before a byte other than `.:,|~`: a translator's comment.
    Translator,
    /// `#.`: a comment extracted from the program.
    Extracted,
    /// `#:`: references to places in the program.
    Reference,
    /// `#,`: flags.
    Flags,
}

/// The marks that the line of a keyword or string begins with.
#[derive(Clone, Copy, Debug, PartialEq, Eq)]
pub struct Marks {
    /// `#~`: the line belongs to an obsolete entry.
    pub obsolete: bool,
    /// `#|` or `#~|`: the line belongs to a previous text.
    pub previous: bool,
}

impl Marks {
    /// Those of an entry's own lines, which begin with `#~` where it is obsolete.
    pub fn own(obsolete: bool) -> Marks
        ensures { result ≡ own_marks obsolete }
    {
        Marks {
            obsolete,
            previous: false,
        }
    }

    /// Those of previous texts, whose lines begin with `#|`, or with `#~|` in an obsolete entry.
    pub fn of_previous(obsolete: bool) -> Marks
        ensures { result ≡ previous_marks obsolete }
    {
        Marks {
            obsolete,
            previous: true,
        }
    }
}

/// The bytes that a quoted string spells.
#[derive(Drop)]
pub enum SpeltBytes<'a> {
    /// Those of the text, where no escape stands among them.
    Plain(&'a [u8]),
    /// With escapes, all of them of ASCII bytes.
    Escaped(Vec<u8>),
    /// With an escape of a byte above 127, which may be a part of a character.
    Numbered(Vec<u8>),
}

impl SpeltBytes<'_> {
    /// The bytes.
    pub fn as_slice(&self) -> &[u8]
        ensures { result.now ≡ spelt_bytes self.now }
    {
        match self {
            SpeltBytes::Plain(bytes) => bytes,
            SpeltBytes::Escaped(bytes) | SpeltBytes::Numbered(bytes) => bytes,
        }
    }
}

/// An item of a PO text, with its line, counted from 1. It borrows from the text, and owns a
/// string's bytes only where an escape makes them differ from the text's.
#[derive(Drop)]
pub enum Item<'a> {
    /// A comment: its text after its mark, without trailing CRs.
    Comment(CommentKind, &'a [u8], u32),
    /// A keyword, under the marks of its line.
    Word(Keyword, Marks, u32),
    /// The bytes that one quoted string spells, under the marks of its line.
    Str(SpeltBytes<'a>, Marks, u32),
}

/// Whether the bytes of a string are UTF-8 or spelt without an escape of a byte above 127.
fn owns_utf8(item: &Item<'_>) -> bool
    ensures { result ≡ owns_utf8 item.now }
{
    let Item::Str(string, ..) = item else {
        return true;
    };
    match string {
        SpeltBytes::Plain(_) | SpeltBytes::Escaped(_) => true,
        SpeltBytes::Numbered(bytes) => is_utf8(bytes),
    }
}

/// Whether each string is UTF-8 by itself. In a PO text that is UTF-8, only one with an escape of a
/// byte above 127 may be other than that, so only such strings are tested.
pub fn strings_are_utf8(items: &[Item<'_>]) -> bool
    requires { All LendsUtf8 items.now }
    ensures { IsTrue result ↔ All (OfString IsUtf8) (views items.now) }
{
    items.iter().all(|item| owns_utf8(item))
}
