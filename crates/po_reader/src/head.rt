//! What stands before an entry's own lines: comments, references, flags and previous texts.

ghost use Rattle.std.specs.Prelude.{◌≡◌, ◌<◌, ◌≤◌, ◌++◌, ◌∷◌, [], ℕ, Bool, false, Some, List, length, IfErr, OnOk};
ghost use Rattle.po_reader.specs.Prelude.{CommentText, PreviousText, TextEntry, head_bytes, rank, with_previous};
ghost use Rattle.po_reader.specs.Internal.Stage.{Between, InHead, after_head};
ghost use Rattle.po_syntax.specs.declared.item.Keyword.{Keyword};
ghost use Rattle.po_reader.specs.Internal.Turn.{begins_body, EndsHead};
ghost use Rattle.po_reader.specs.Internal.Reads.{comes, in_head, Fails};
ghost use Rattle.po_reader.specs.Internal.ReaderView.{HoldsHead, HoldsComments, with_kept_head};

use crate::comment_texts::{add_references, distinct_flags, has_fuzzy};
use crate::cursor::{Cursor, take_strings};
use po_entry::{Previous, TextList, add_head};
use po_syntax::{CommentKind, Item, Keyword, Marks, PoError, PoFault};
use std::alloc::{AllocError, Global};

/// What stands before an entry's own lines.
pub(crate) struct Head<'a> {
    pub(crate) comments: TextList,
    pub(crate) extracted: TextList,
    pub(crate) references: TextList,
    /// The texts of its flag lines.
    pub(crate) flags: Vec<&'a [u8]>,
    /// Whether one of these lines has `fuzzy`.
    pub(crate) fuzzy: bool,
    pub(crate) previous: Previous,
}

impl Drop for Head<'_> {
    #[inline(always)]
    fn drop(self) {
        let Head {
            comments: _,
            extracted: _,
            references: _,
            flags: _,
            fuzzy: _,
            previous: _,
        } = self;
    }
}

impl Head<'_> {
    /// One that holds nothing.
    #[inline(always)]
    pub(crate) fn new(alloc: Global) -> Self
        ensures { (all : Bool) → HoldsHead all result [] [] }
    {
        Head {
            comments: TextList::new(alloc),
            extracted: TextList::new(alloc),
            references: TextList::new(alloc),
            previous: Previous::none(),
            flags: Vec::new(alloc),
            fuzzy: false,
        }
    }

    /// Drops what it holds, and keeps its room.
    pub(crate) fn clear(&mut self)
        ensures { (all : Bool) → HoldsHead all self.new [] [] }
    {
        self.comments.clear();
        self.extracted.clear();
        self.references.clear();
        self.flags.clear();
        self.fuzzy = false;
        self.previous = Previous::none();
    }

    /// Appends it, with each of its flags once.
    pub(crate) fn lay_out(&self, alloc: Global, bytes: &mut Vec<u8>) -> Result<(), AllocError>
        ensures grows { OnOk result (length bytes.old.items ≤ length bytes.new.items) }
        ensures laid { OnOk result ((all : Bool) (comment_texts : List CommentText) (previous : List PreviousText)
            (own : TextEntry) → HoldsHead all self.now comment_texts previous
            → bytes.new.items ≡ bytes.old.items ++ head_bytes (with_kept_head all comment_texts previous own)) }
    {
        let flags = distinct_flags(alloc, &self.flags)?;
        add_head(
            bytes,
            &self.comments,
            &self.extracted,
            &self.references,
            &flags,
            &self.previous,
        )
    }
}

/// The rank of a keyword among the previous texts; 0 where it is none of theirs.
fn rank(keyword: Keyword) -> u32
    ensures { result ≡ rank keyword }
{
    match keyword {
        Keyword::MsgCtxt => 1,
        Keyword::MsgId => 2,
        Keyword::MsgIdPlural => 3,
        Keyword::MsgStr | Keyword::MsgStrAt(_) => 0,
    }
}

/// Whether a body begins with the keyword.
fn begins_body(keyword: Keyword) -> bool
    ensures { result ≡ begins_body keyword }
{
    matches!(keyword, Keyword::MsgCtxt | Keyword::MsgId)
}

/// Adds a comment to those of its kind, where comments are wanted, and otherwise just whether it
/// has the flag `fuzzy`.
fn add_comment<'a>(
    head: &mut Head<'a>,
    with_comments: bool,
    kind: CommentKind,
    text: &'a [u8],
) -> Result<(), AllocError>
    ensures comment_texts { OnOk result ((comment_texts : List CommentText)
        → HoldsComments with_comments head.old comment_texts
        → HoldsComments with_comments head.new (comment_texts ++ (record { kind = kind; text = text.now }) ∷ [])) }
    ensures previous { OnOk result (head.new.previous ≡ head.old.previous) }
{
    match kind {
        CommentKind::Flags => {
            if has_fuzzy(text) {
                head.fuzzy = true;
            }
            if with_comments {
                head.flags.push(text)?;
            }
        }
        _ if !with_comments => {}
        CommentKind::Translator => head.comments.push(text)?,
        CommentKind::Extracted => head.extracted.push(text)?,
        CommentKind::Reference => add_references(&mut head.references, text)?,
    }
    Ok(())
}

/// Sets the previous text of this keyword.
fn set_previous(previous: &mut Previous, keyword: Keyword, text: Vec<u8>)
    requires { 0 < rank keyword }
    ensures { previous.new ≡ with_previous keyword text.items previous.old }
{
    match keyword {
        Keyword::MsgCtxt => previous.context = Some(text),
        Keyword::MsgId => previous.id = Some(text),
        Keyword::MsgIdPlural => previous.plural = Some(text),
        Keyword::MsgStr | Keyword::MsgStrAt(_) => unreachable!(),
    }
}

/// Takes what stands before an entry's own lines, or up to the end of the items, into a head that
/// may hold comments before these: all of it, or without comments but for whether they have the
/// flag `fuzzy`.
pub(crate) fn take_head<'a>(
    alloc: Global,
    rest: &mut Cursor<'_, 'a>,
    with_comments: bool,
    head: &mut Head<'a>,
) -> Result<(), PoError>
    ensures found { OnOk result ((before : List CommentText) → (comment_texts : List CommentText)
        × (previous : List PreviousText) × (above : ℕ)
        × (HoldsHead with_comments head.old before [] → HoldsHead with_comments head.new comment_texts previous)
        × ((entries : List TextEntry) → comes (in_head entries before) rest.old
        ≡ comes (Between (InHead (after_head entries comment_texts previous) above)) rest.new)
        × EndsHead above rest.new.items × (above ≡ 0 → previous ≡ [])) }
    ensures fewer { OnOk result (length rest.new.items ≤ length rest.old.items) }
    ensures fault { IfErr result (λ e. (entries : List TextEntry) (before : List CommentText)
        → Fails (in_head entries before) rest.old e) }
{
    let mut above = 0;
    loop {
        match rest.first() {
            Some(Item::Comment(kind, text, _)) => {
                rest.advance();
                add_comment(head, with_comments, *kind, text)?;
            }
            Some(Item::Word(keyword, marks, _)) => {
                if !marks.previous {
                    if begins_body(*keyword) {
                        return Ok(());
                    }
                    return Err(rest.refusal(PoFault::BadOrder));
                }
                let rank = rank(*keyword);
                if rank <= above {
                    return Err(rest.refusal(PoFault::BadOrder));
                }
                rest.advance();
                let mut text = Vec::new(alloc);
                take_strings(rest, *marks, &mut text)?;
                set_previous(&mut head.previous, *keyword, text);
                above = rank;
            }
            Some(Item::Str(..)) => return Err(rest.refusal(PoFault::BadOrder)),
            None if above == 0 => return Ok(()),
            None => return Err(rest.refusal(PoFault::BadOrder)),
        }
    }
}
