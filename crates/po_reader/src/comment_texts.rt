//! The references and flags that comments spell, and the flags that an entry keeps (manual, "The
//! Format of PO Files").

ghost use Rattle.std.specs.Prelude.{◌≡◌, ◌++◌, ◌∷◌, [], filter, fold, IfOk, OnOk};
ghost use Rattle.std.specs.List.{flat_map, list_any};
ghost use Rattle.po_reader.specs.Prelude.{digest_of, is_fuzzy_flag, is_not_empty, listed_flags, listed_references, seed_of, slice_texts, trimmed, with_flag};

use po_entry::{Seeded, SeenTexts, TextList};
use po_syntax::{is_blank, skip_blanks};
use std::alloc::{AllocError, Global};
use std::hash::{DefaultHasher, Hasher};

/// How many bytes of a text a flag and the comma after it usually take, at most.
const USUAL_LEN: usize = 16;

/// The text without the blanks at its ends.
fn trimmed(text: &[u8]) -> &[u8]
    ensures { result.now ≡ trimmed text.now }
{
    let rest = skip_blanks(text);
    let after = rest.iter().rev().take_while(|b| is_blank(**b)).count();
    rest.split_at(rest.len() - after).0
}

/// Adds the elements of a text, which stand between blanks.
pub(crate) fn add_references(list: &mut TextList, text: &[u8]) -> Result<(), AllocError>
    ensures { OnOk result (list.new ≡ list.old ++ listed_references text.now) }
{
    for element in text.split(|b| is_blank(*b)) {
        if !element.is_empty() {
            list.push(element)?;
        }
    }
    Ok(())
}

/// Whether the flag is `fuzzy`.
fn is_fuzzy_flag(flag: &[u8]) -> bool
    ensures { result ≡ is_fuzzy_flag flag.now }
{
    flag == b"fuzzy".as_slice()
}

/// Whether `fuzzy` is among the flags of a text, which stand between commas.
pub(crate) fn has_fuzzy(text: &[u8]) -> bool
    ensures { result ≡ list_any is_fuzzy_flag (listed_flags text.now) }
{
    text.split(|b| *b == b',')
        .any(|element| is_fuzzy_flag(trimmed(element)))
}

/// Adds the flags of a text other than `fuzzy` to those that were seen.
fn add_flags<'i>(seen: &mut SeenTexts<'i>, text: &'i [u8]) -> Result<(), AllocError>
    ensures { OnOk result (seen.new ≡ fold with_flag seen.old (listed_flags text.now)) }
{
    for element in text.split(|b| *b == b',') {
        let flag = trimmed(element);
        if !flag.is_empty() && !is_fuzzy_flag(flag) {
            seen.add(flag)?;
        }
    }
    Ok(())
}

/// Hashes that begin with a digest of these texts.
fn seeded_by(texts: &[&[u8]]) -> Seeded
    ensures { result ≡ seed_of (digest_of (slice_texts texts.now)) }
{
    let mut digest = DefaultHasher::new();
    for text in texts {
        digest.write(text);
    }
    Seeded::of(&digest)
}

/// How many flags the texts may have: a capacity, of one at least for each text.
fn room_for(texts: &[&[u8]]) -> usize {
    let len = texts
        .iter()
        .fold(0, |sum: usize, text| sum.saturating_add(text.len()));
    (len / USUAL_LEN).max(texts.len())
}

/// The flags of texts other than `fuzzy`, each once, where it first stands.
pub(crate) fn distinct_flags(alloc: Global, texts: &[&[u8]]) -> Result<TextList, AllocError>
    ensures { IfOk result (λ kept. kept ≡ fold with_flag [] (flat_map listed_flags (slice_texts texts.now))) }
{
    if texts.is_empty() {
        return Ok(TextList::new(alloc));
    }
    if let [text] = texts {
        if !text.contains(&b',') {
            return only_flag(alloc, trimmed(text));
        }
    }
    let mut seen = SeenTexts::with_capacity(alloc, room_for(texts), seeded_by(texts))?;
    for text in texts {
        add_flags(&mut seen, text)?;
    }
    seen.into_list(alloc)
}

/// The flag, unless it is empty or `fuzzy`. Most entries have no flag or one.
fn only_flag(alloc: Global, flag: &[u8]) -> Result<TextList, AllocError>
    ensures { IfOk result (λ kept. kept ≡ fold with_flag [] (filter is_not_empty (flag.now ∷ []))) }
{
    let mut kept = TextList::new(alloc);
    if !flag.is_empty() && !is_fuzzy_flag(flag) {
        kept.push(flag)?;
    }
    Ok(kept)
}
