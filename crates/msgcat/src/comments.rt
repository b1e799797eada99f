//! The comments, references and flags of a merged entry.

ghost use Rattle.std.specs.Prelude.{◌≡◌, ◌<◌, fold, length, IfOk, OnOk};
ghost use Rattle.std.specs.Hash.DefaultHasher.{write};
ghost use Rattle.std.specs.List.{flat_map};
ghost use Rattle.msgcat.specs.Prelude.{comment_of, digest_of, named_entries, seed_of, texts_left, texts_of, with_others};
ghost use Rattle.msgcat.specs.Internal.Merging.{HaveSameTexts};

use crate::definition::{NamedEntry, Part, first_with};
use crate::input::MergeOptions;
use po_entry::{EntryRef, Seeded, SeenTexts, TextList, TextListIter};
use po_syntax::CommentKind;
use std::alloc::{AllocError, Global};
use std::hash::{DefaultHasher, Hasher};

/// The entry's comments of one kind; of its flags those other than `fuzzy`.
fn texts_of<'a>(entry: &EntryRef<'a>, kind: CommentKind) -> TextListIter<'a>
    ensures { texts_left result ≡ texts_of kind entry.now }
{
    match kind {
        CommentKind::Translator => entry.comments(),
        CommentKind::Extracted => entry.extracted(),
        CommentKind::Reference => entry.references(),
        CommentKind::Flags => entry.flags(),
    }
}

/// Appends those of the texts that no earlier definition has, and adds all of them to those that
/// were seen.
fn push_others<'a>(
    done: &mut TextList,
    seen: &mut SeenTexts<'a>,
    others: TextListIter<'a>,
) -> Result<(), AllocError>
    requires { HaveSameTexts seen.old done.old }
    ensures others { OnOk result (done.new ≡ with_others done.old (texts_left others.entry)) }
    ensures seen { OnOk result (HaveSameTexts seen.new done.new) }
{
    let earlier = seen.len();
    for text in others {
        if seen.add(text)? >= earlier {
            done.push(text)?;
        }
    }
    Ok(())
}

/// Digests texts after what was digested before.
fn digest_texts(digest: &mut DefaultHasher, texts: TextListIter<'_>)
    ensures { digest.new ≡ fold write digest.old (texts_left texts.entry) }
{
    for text in texts {
        digest.write(text);
    }
}

/// Hashes that begin with a digest of the texts of one kind of the definitions.
fn seeded_by(definitions: &[NamedEntry<'_>], kind: CommentKind) -> Seeded
    ensures { result ≡ seed_of (digest_of (flat_map (λ d. texts_of kind d.entry) (named_entries definitions.now))) }
{
    let mut digest = DefaultHasher::new();
    for definition in definitions {
        digest_texts(&mut digest, texts_of(&definition.entry, kind));
    }
    Seeded::of(&digest)
}

/// The comments of one kind that the definitions are merged to: where they are collected, of each
/// definition those that no earlier one has.
pub(crate) fn comment_of(
    alloc: Global,
    options: &MergeOptions,
    kind: CommentKind,
    definitions: &[NamedEntry<'_>],
) -> Result<TextList, AllocError>
    requires { 0 < length definitions.now }
    ensures { IfOk result (λ all. all ≡ comment_of options.now kind (named_entries definitions.now)) }
{
    if options.use_first {
        return texts_of(first_with(definitions, Part::Translation), kind).copy(alloc);
    }
    let mut seen = SeenTexts::new(alloc, seeded_by(definitions, kind));
    let mut all = TextList::new(alloc);
    for definition in definitions {
        push_others(&mut all, &mut seen, texts_of(&definition.entry, kind))?;
    }
    Ok(all)
}
