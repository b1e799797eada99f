//! What a text becomes by envsubst, however it is cut, and the names in a format.

use po_shell::{Counted, Substituter, ToolFault, name_and_value, name_lines, names};
use std::alloc::{AllocError, Global};

type Variables = &'static [(&'static [u8], &'static [u8])];

const A: Variables = &[(b"A", b"v")];

const A_AND_B: Variables = &[(b"A", b"v"), (b"B", b"w")];

const A_TWICE: Variables = &[(b"A", b"\xff"), (b"A", b"w")];

const LONGEST_AND_LONGER: Variables = &[(&[b'A'; 255], b"v"), (&[b'A'; 256], b"w")];

/// The variables, a text, and what it becomes.
const TEXTS: &[(Variables, &[u8], &[u8])] = &[
    (A, b"$A${A}${A-x}$$A$9${", b"vv${A-x}$v$9${"),
    (A, b"${${A}}$", b"${v}$"),
    (A, b"a $UNSET ${UNSET}b$_", b"a  b"),
    (A_TWICE, b"$A\xfe", b"\xff\xfe"),
];

/// The length of a name, and whether it is one.
const LENGTHS: &[(usize, bool)] = &[(255, true), (256, false)];

/// An entry of the environment, and what stands before and after its first equals sign.
const ENTRIES: &[(&[u8], Option<(&[u8], &[u8])>)] = &[
    (b"A=b=c", Some((b"A", b"b=c"))),
    (b"=x", Some((b"", b"x"))),
    (b"A", None),
];

/// What a text becomes. It is fed whole, or cut after this prefix, or in pieces of this size.
fn substituted(
    alloc: Global,
    text: &[u8],
    prefix: usize,
    size: usize,
    vars: &[(&[u8], &[u8])],
    only: Option<&[&[u8]]>,
) -> Result<Vec<u8>, ToolFault> {
    let mut writer = Counted::new(Vec::new(alloc));
    let mut substituter = Substituter::new(vars, only);
    let mut rest = text;
    if prefix < text.len() {
        let (piece, others) = text.split_at(prefix);
        substituter.feed(piece, &mut writer)?;
        rest = others;
    }
    while size > 0 && rest.len() > size {
        let (piece, others) = rest.split_at(size);
        substituter.feed(piece, &mut writer)?;
        rest = others;
    }
    substituter.feed(rest, &mut writer)?;
    substituter.finish(&mut writer)?;
    Ok(writer.into_inner())
}

/// Whether a text that is fed so becomes this.
fn becomes(
    alloc: Global,
    text: &[u8],
    prefix: usize,
    size: usize,
    vars: &[(&[u8], &[u8])],
    wanted: &[u8],
) -> bool {
    match substituted(alloc, text, prefix, size, vars, None) {
        Ok(output) => output.as_slice() == wanted,
        Err(_) => false,
    }
}

/// Whether a text becomes this, whole, in every two pieces, and in pieces of one or two bytes.
fn becomes_however_cut(alloc: Global, text: &[u8], vars: &[(&[u8], &[u8])], wanted: &[u8]) -> bool {
    for size in 0..3 {
        if !becomes(alloc, text, text.len(), size, vars, wanted) {
            return false;
        }
    }
    for prefix in 0..text.len() {
        if !becomes(alloc, text, prefix, 0, vars, wanted) {
            return false;
        }
    }
    true
}

/// A reference to a name of this length.
fn reference(alloc: Global, length: usize, is_braced: bool) -> Result<Vec<u8>, AllocError> {
    let mut text = Vec::from_slice(alloc, if is_braced { b"${".as_slice() } else { b"$" })?;
    for _ in 0..length {
        text.push(b'A')?;
    }
    if is_braced {
        text.push(b'}')?;
    }
    Ok(text)
}

/// Whether a reference to a name of this length is replaced by `v`, or stays.
fn is_replaced(alloc: Global, length: usize, is_braced: bool, is_name: bool) -> bool {
    match reference(alloc, length, is_braced) {
        Ok(text) => {
            let wanted = if is_name { b"v" } else { text.as_slice() };
            becomes_however_cut(alloc, &text, LONGEST_AND_LONGER, wanted)
        }
        Err(_) => false,
    }
}

/// Whether `$A$B` becomes this where the names of a format alone are replaced.
fn becomes_by_format(alloc: Global, format: &[u8], wanted: &[u8]) -> bool {
    let Ok(only) = names(alloc, format) else {
        return false;
    };
    match substituted(alloc, b"$A$B", 4, 0, A_AND_B, Some(&only)) {
        Ok(output) => output.as_slice() == wanted,
        Err(_) => false,
    }
}

/// Whether a format has these names.
fn has_names(alloc: Global, format: &[u8], wanted: &[&[u8]]) -> bool {
    match names(alloc, format) {
        Ok(listed) => listed.as_slice() == wanted,
        Err(_) => false,
    }
}

/// Whether the names of a format are written in these lines.
fn has_lines(alloc: Global, format: &[u8], wanted: &[u8]) -> bool {
    match name_lines(alloc, format) {
        Ok(lines) => lines.as_slice() == wanted,
        Err(_) => false,
    }
}

#[test]
fn replaces_references_however_a_text_is_cut(rt: HostRuntime) {
    for (vars, text, wanted) in TEXTS {
        assert!(rt;
            becomes_however_cut(rt.alloc(), text, vars, wanted),
            "of {text:?}"
        );
    }
}

#[test]
fn takes_names_of_at_most_255_bytes(rt: HostRuntime) {
    for (length, is_name) in LENGTHS {
        assert!(rt;
            is_replaced(rt.alloc(), *length, false, *is_name),
            "of {length}"
        );
        assert!(rt;
            is_replaced(rt.alloc(), *length, true, *is_name),
            "of {length}, braced"
        );
    }
}

#[test]
fn takes_the_names_of_a_format(rt: HostRuntime) {
    assert!(rt; becomes_by_format(rt.alloc(), b"$B", b"$Aw"));
    assert!(rt; has_names(rt.alloc(), b"$A ${B}$A $9 ${A-x} $", &[b"A", b"B", b"A"]));
    assert!(rt; has_lines(rt.alloc(), b"$A ${B}$A", b"A\nB\nA\n"));
}

#[test]
fn cuts_an_entry_at_its_first_equals_sign(rt: HostRuntime) {
    for (entry, wanted) in ENTRIES {
        assert!(rt; name_and_value(entry) == *wanted, "of {entry:?}");
    }
}
