//! Every truncation of some texts, and every change of one byte to one that the format gives a
//! meaning to. The first fault of the items is reported, and what is accepted is written so that it
//! reads back: the live entries in order, then the obsolete ones.

mod first_fault;

use crate::assertions::{assert_at, assert_fault};
use crate::texts::{ESCAPES, EVERY_LINE, FUZZY_AND_OBSOLETE};
use first_fault::first_fault;
use po_catalog::{Catalogue, Entry, read, write};
use po_syntax::items;
use std::alloc::Global;
use std::process::Abort;
use std::test::Fail;

/// The bytes that a change puts in a byte's place.
const CHANGES: &[u8] = b"\"\\#\n\0\xff";

/// Whether entries, from this index of a catalogue on, are those of a list with this obsolete mark.
fn stand_from(first: usize, catalogue: &[Entry], list: &[Entry], obsolete: bool) -> Option<usize> {
    let mut at = first;
    for entry in list {
        if entry.obsolete() == obsolete {
            if catalogue.get(at)? != entry {
                return None;
            }
            at = at.checked_add(1)?;
        }
    }
    Some(at)
}

/// Whether a catalogue has the entries of another, arranged.
fn is_arranged(arranged: &[Entry], list: &[Entry]) -> bool {
    match stand_from(0, arranged, list, false) {
        Some(live) => stand_from(live, arranged, list, true) == Some(arranged.len()),
        None => false,
    }
}

/// Whether a catalogue is written so that it reads back, and is then written as the same text.
fn reads_back(alloc: Global, catalogue: &Catalogue) -> Result<bool, Fail> {
    let written = write(alloc, catalogue)?;
    let back = read(alloc, &written)?;
    let again = write(alloc, &back)?;
    Ok(is_arranged(back.entries(), catalogue.entries()) && again == written)
}

/// Whether the catalogue of a text reads back, if the text is accepted.
fn catalogue_reads_back(alloc: Global, text: &[u8]) -> Result<Option<bool>, Fail> {
    match read(alloc, text) {
        Ok(catalogue) => Ok(Some(reads_back(alloc, &catalogue)?)),
        Err(_) => Ok(None),
    }
}

/// Whether a text is accepted.
fn check(rt: &impl Abort, alloc: Global, text: &[u8]) -> Result<bool, Fail> {
    assert_fault(rt, items(alloc, text).err(), first_fault(text), text);
    let accepted = catalogue_reads_back(alloc, text)?;
    assert_at(rt, accepted != Some(false), text);
    Ok(accepted.is_some())
}

/// How many truncations of a text are accepted; the whole text is one of them.
fn accepted(rt: &impl Abort, alloc: Global, text: &[u8]) -> Result<u32, Fail> {
    let mut accepted = 0u32;
    for length in 0..=text.len() {
        if check(rt, alloc, &text[..length])? {
            accepted = accepted.saturating_add(1);
        }
    }
    Ok(accepted)
}

/// Puts each of the changes in the place of a byte.
fn check_changes(
    rt: &impl Abort,
    alloc: Global,
    text: &mut [u8],
    offset: usize,
) -> Result<(), Fail> {
    for byte in CHANGES {
        if let Some(changed) = text.get_mut(offset) {
            *changed = *byte;
        }
        check(rt, alloc, text)?;
    }
    Ok(())
}

#[test]
fn every_truncation(rt: HostRuntime) -> Result<(), Fail> {
    for text in [EVERY_LINE, ESCAPES, FUZZY_AND_OBSOLETE] {
        assert_eq!(rt; first_fault(text), None);
        let count = accepted(&rt, rt.alloc(), text)?;
        // Cut after the end of an entry's last string, with or without what blank lines follow.
        assert!(rt; count >= 10 || text != FUZZY_AND_OBSOLETE);
    }
    Ok(())
}

#[test]
fn every_change_of_a_byte(rt: HostRuntime) -> Result<(), Fail> {
    for whole in [EVERY_LINE, ESCAPES, FUZZY_AND_OBSOLETE] {
        let mut text = whole.to_vec(rt.alloc())?;
        for (offset, was) in whole.iter().enumerate() {
            check_changes(&rt, rt.alloc(), &mut text, offset)?;
            if let Some(changed) = text.get_mut(offset) {
                *changed = *was;
            }
        }
    }
    Ok(())
}
