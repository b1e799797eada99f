//! Every truncation of four files, and every change of one of their bytes: each is refused with the
//! fault that a plain reading of "The Format of GNU MO Files" finds first, or is asked, and answers
//! as that does.

use crate::samples::{CONTEXTS, ONE, ONE_BIG, TWO};
use mo_file::{Meter, MoError};
use mo_lookup::Catalog;
use std::alloc::{AllocError, Global};

const FILES: &[&[u8]] = &[&ONE, &ONE_BIG, &TWO, &CONTEXTS];

/// Where the table of the translations begins in two of the files: what is before it is changed in
/// one test, and the rest in another, so that neither takes long.
const TRANSLATIONS_OF_TWO: usize = 44;

const TRANSLATIONS_OF_CONTEXTS: usize = 52;

/// Where the file header says where the table of the originals stands.
const ORIGINALS: usize = 12;

/// Where it says that of the table of the translations.
const TRANSLATIONS: usize = 16;

/// The word at a place, 0 where the file ends before its end.
fn word(file: &[u8], at: usize) -> u32 {
    let is_big = file.first() == Some(&0x95);
    let mut word: u32 = 0;
    for i in 0..4usize {
        let place = if is_big { i } else { 3usize.wrapping_sub(i) };
        let Some(byte) = file.get(at.wrapping_add(place)) else {
            return 0;
        };
        word = word.wrapping_mul(256).wrapping_add(u32::from(*byte));
    }
    word
}

/// How many messages the file has.
fn count(file: &[u8]) -> u32 {
    word(file, 8)
}

/// Where what a table says of a string stands.
fn entry(file: &[u8], table: usize, i: u32) -> usize {
    (word(file, table) as usize).wrapping_add((i as usize).wrapping_mul(8))
}

/// Where a string begins.
fn start(file: &[u8], table: usize, i: u32) -> usize {
    word(file, entry(file, table, i).wrapping_add(4)) as usize
}

/// Where it ends.
fn end(file: &[u8], table: usize, i: u32) -> usize {
    start(file, table, i).wrapping_add(word(file, entry(file, table, i)) as usize)
}

/// What stands before the first byte of this value, and what after it; none where there is no such
/// byte.
fn cut(byte: u8, text: &[u8]) -> Option<(&[u8], &[u8])> {
    let at = text.iter().position(|other| *other == byte)?;
    Some((text.get(..at)?, text.get(at.wrapping_add(1)..)?))
}

/// What stands before the first NUL of a string of a file without a fault.
fn string(file: &[u8], table: usize, i: u32) -> &[u8] {
    let text = file.get(start(file, table, i)..).unwrap_or(&[]);
    cut(0, text).map_or(text, |(before, _)| before)
}

/// The first message of which a string ends past the end of the file.
fn first_outside(file: &[u8]) -> Option<u32> {
    for i in 0..count(file) {
        if end(file, ORIGINALS, i) > file.len() || end(file, TRANSLATIONS, i) > file.len() {
            return Some(i);
        }
    }
    None
}

/// The first message of which no NUL follows a string.
fn first_unterminated(file: &[u8]) -> Option<u32> {
    for i in 0..count(file) {
        let follow = [
            file.get(end(file, ORIGINALS, i)),
            file.get(end(file, TRANSLATIONS, i)),
        ];
        if follow != [Some(&0), Some(&0)] {
            return Some(i);
        }
    }
    None
}

/// The first message whose key isn't above that of the one before.
fn first_unsorted(file: &[u8]) -> Option<u32> {
    for i in 1..count(file) {
        if string(file, ORIGINALS, i.wrapping_sub(1)) >= string(file, ORIGINALS, i) {
            return Some(i);
        }
    }
    None
}

/// Whether a table ends past the end of the file.
fn is_outside(file: &[u8], table: usize) -> bool {
    entry(file, table, count(file)) > file.len()
}

/// The first fault of a file, or none.
fn fault(file: &[u8]) -> Option<MoError> {
    if file.len() < 28 {
        return Some(MoError::TooShort);
    }
    if word(file, 0) != 0x9504_12de {
        return Some(MoError::BadMagic);
    }
    if word(file, 4) > 0x1_ffff {
        return Some(MoError::BadRevision);
    }
    if is_outside(file, ORIGINALS) || is_outside(file, TRANSLATIONS) {
        return Some(MoError::TableOutside);
    }
    if let Some(i) = first_outside(file) {
        return Some(MoError::StringOutside(i));
    }
    if let Some(i) = first_unterminated(file) {
        return Some(MoError::NoTerminator(i));
    }
    first_unsorted(file).map(MoError::NotSorted)
}

/// Whether a query is answered by this text within a bound, or by its msgid where there is no text.
fn answers<'a>(
    catalog: &Catalog<'a>,
    context: Option<&'a [u8]>,
    id: &'a [u8],
    text: Option<&'a [u8]>,
    bound: u32,
) -> bool {
    let answer = catalog.look(context, id, None, &mut Meter::new());
    let is_text = match text {
        Some(text) => answer.found && answer.text == text,
        None => !answer.found && answer.text == id,
    };
    is_text && answer.comparisons <= bound
}

/// The context and the msgid of a key.
fn query_of(key: &[u8]) -> (Option<&[u8]>, &[u8]) {
    match cut(4, key) {
        Some((context, id)) => (Some(context), id),
        None => (None, key),
    }
}

/// The most comparisons for so many messages: 1 for one, and one more for twice as many.
fn bound(count: u32) -> u32 {
    match count {
        0 => 0,
        1 => 1,
        2 | 3 => 2,
        _ => 32,
    }
}

/// Whether each key of a file is answered by its translation, but one whose msgid has a byte 4.
fn keys_are_found<'a>(file: &'a [u8], catalog: &Catalog<'a>) -> bool {
    for i in 0..count(file) {
        let (context, id) = query_of(string(file, ORIGINALS, i));
        let text = string(file, TRANSLATIONS, i);
        let is_answered = match cut(4, id) {
            None => answers(catalog, context, id, Some(text), bound(count(file))),
            Some(_) => answers(catalog, context, id, None, 0),
        };
        if !is_answered {
            return false;
        }
    }
    true
}

/// The translation under a key, where a message has it.
fn translation_of<'a>(file: &'a [u8], key: &[u8]) -> Option<&'a [u8]> {
    for i in 0..count(file) {
        if string(file, ORIGINALS, i) == key {
            return Some(string(file, TRANSLATIONS, i));
        }
    }
    None
}

/// Whether a msgid is answered as the file has it, or by itself.
fn is_answered<'a>(file: &'a [u8], catalog: &Catalog<'a>, id: &'a [u8]) -> bool {
    let text = translation_of(file, id);
    answers(catalog, None, id, text, bound(count(file)))
}

/// Whether a file is refused with its first fault, or opened, and then answers as it should.
fn is_read(file: &[u8]) -> bool {
    match (Catalog::open(file, &mut Meter::new()), fault(file)) {
        (Err(error), Some(first)) => error == first,
        (Ok(catalog), None) => {
            catalog.len() == count(file)
                && keys_are_found(file, &catalog)
                && is_answered(file, &catalog, b"a")
                && is_answered(file, &catalog, b"z")
                && is_answered(file, &catalog, b"")
        }
        _ => false,
    }
}

/// The first length up to which a file isn't read as it should, or none.
fn truncation_misread(file: &[u8]) -> Option<usize> {
    for len in 0..=file.len() {
        if !is_read(file.get(..len).unwrap_or(&[])) {
            return Some(len);
        }
    }
    None
}

/// Puts a byte at a place.
fn put(file: &mut [u8], at: usize, byte: u8) {
    if let Some(place) = file.get_mut(at) {
        *place = byte;
    }
}

/// Whether a file is read as it should with each value of the byte at a place.
fn is_read_with_changes(file: &mut [u8], at: usize) -> bool {
    for changed in 0..=255u8 {
        put(file, at, changed);
        if !is_read(file) {
            return false;
        }
    }
    true
}

/// The first of these places at which another byte is misread, or none.
fn change_misread(
    alloc: Global,
    file: &[u8],
    from: usize,
    to: usize,
) -> Result<Option<usize>, AllocError> {
    let mut changed = file.to_vec(alloc)?;
    for at in from..to {
        if !is_read_with_changes(&mut changed, at) {
            return Ok(Some(at));
        }
        put(&mut changed, at, file.get(at).copied().unwrap_or(0));
    }
    Ok(None)
}

#[test]
fn reads_every_truncation(rt: HostRuntime) {
    for (row, file) in FILES.iter().enumerate() {
        let misread = truncation_misread(file);
        assert!(rt; misread.is_none(), "file {row}: {misread:?}");
    }
}

#[test]
fn reads_every_changed_byte_of_one_message(rt: HostRuntime) {
    assert!(rt; change_misread(rt.alloc(), &ONE, 0, ONE.len()) == Ok(None));
}

#[test]
fn reads_every_changed_byte_of_one_message_in_the_other_order(rt: HostRuntime) {
    assert!(rt; change_misread(rt.alloc(), &ONE_BIG, 0, ONE_BIG.len()) == Ok(None));
}

#[test]
fn reads_every_changed_byte_of_two_messages(rt: HostRuntime) {
    assert!(rt; change_misread(rt.alloc(), &TWO, 0, TRANSLATIONS_OF_TWO) == Ok(None));
}

#[test]
fn reads_every_changed_byte_of_their_translations(rt: HostRuntime) {
    assert!(rt; change_misread(rt.alloc(), &TWO, TRANSLATIONS_OF_TWO, TWO.len()) == Ok(None));
}

#[test]
fn reads_every_changed_byte_of_three_contexts(rt: HostRuntime) {
    assert!(rt; change_misread(rt.alloc(), &CONTEXTS, 0, TRANSLATIONS_OF_CONTEXTS) == Ok(None));
}

#[test]
fn reads_every_changed_byte_of_what_follows_them(rt: HostRuntime) {
    let misread = change_misread(
        rt.alloc(),
        &CONTEXTS,
        TRANSLATIONS_OF_CONTEXTS,
        CONTEXTS.len(),
    );
    assert!(rt; misread == Ok(None));
}
