//! Every truncation and every change of one byte of three MO files, as msgunfmt takes them: what
//! opens as no catalogue is refused with its fault; what is given as a text compiles, and from then
//! on text and file come back unchanged.

use mo_file::{Meter, MoView, Order};
use po_tools::{Options, UnformatError, compile, unformat};
use std::alloc::Global;
use std::test::Fail;

const OPTIONS: Options = Options {
    use_fuzzy: false,
    order: Order::Little,
};

/// Texts whose files have 48, 68 and 91 bytes: one message, two, and one msgid in three contexts.
const TEXTS: &[(&[u8], usize)] = &[
    (b"msgid \"a\"\nmsgstr \"b\"\n", 48),
    (
        b"msgid \"b\"\nmsgstr \"1\"\nmsgid \"a\"\nmsgstr \"2\"\n",
        68,
    ),
    (
        b"msgctxt \"\"\nmsgid \"x\"\nmsgstr \"1\"\n\nmsgctxt \"c\"\nmsgid \"x\"\nmsgstr \"2\"\n\nmsgid \"x\"\nmsgstr \"3\"\n",
        91,
    ),
];

/// The file of a text, where it is compiled.
fn file_of(alloc: Global, text: &[u8]) -> Option<Vec<u8>> {
    match compile(alloc, text, OPTIONS) {
        Ok(compiled) => Some(compiled.bytes),
        Err(_) => None,
    }
}

/// Whether a text compiles to a file whose text compiles to the same file.
fn comes_back(alloc: Global, text: &[u8]) -> bool {
    let Some(file) = file_of(alloc, text) else {
        return false;
    };
    match unformat(alloc, &file) {
        Ok(again) => file_of(alloc, &again) == Some(file),
        Err(_) => false,
    }
}

/// Whether bytes are taken as they should be.
fn is_taken(alloc: Global, bytes: &[u8]) -> bool {
    match (
        MoView::open(bytes, &mut Meter::new()),
        unformat(alloc, bytes),
    ) {
        (Ok(_), Ok(text)) => comes_back(alloc, &text),
        (Ok(_), Err(fault)) => !matches!(fault, UnformatError::Mo(_) | UnformatError::OutOfMemory),
        (Err(wanted), Err(UnformatError::Mo(fault))) => fault == wanted,
        _ => false,
    }
}

/// The length of the first truncation of a file that isn't taken as it should be.
fn wrong_truncation(alloc: Global, file: &[u8]) -> Option<usize> {
    for length in 0..=file.len() {
        if !is_taken(alloc, &file[..length]) {
            return Some(length);
        }
    }
    None
}

/// The first offset of a file, and the byte put there, that give what isn't taken as it should be.
fn wrong_change(alloc: Global, file: &[u8], bytes: &mut [u8]) -> Option<(usize, u8)> {
    for (offset, was) in file.iter().enumerate() {
        for byte in 0..=255 {
            if let Some(changed) = bytes.get_mut(offset) {
                *changed = byte;
            }
            if !is_taken(alloc, bytes) {
                return Some((offset, byte));
            }
        }
        if let Some(changed) = bytes.get_mut(offset) {
            *changed = *was;
        }
    }
    None
}

/// Whether the file of a text has this length, and each truncation and change of it is taken as it
/// should be.
fn is_swept(alloc: Global, text: &[u8], length: usize) -> bool {
    match (file_of(alloc, text), file_of(alloc, text)) {
        (Some(file), Some(mut bytes)) => {
            file.len() == length
                && wrong_truncation(alloc, &file).is_none()
                && wrong_change(alloc, &file, bytes.as_mut_slice()).is_none()
        }
        _ => false,
    }
}

#[test]
fn every_truncation_and_change(rt: HostRuntime) {
    for (text, length) in TEXTS {
        assert!(rt; is_swept(rt.alloc(), text, *length), "of {length}");
    }
}
