//! Texts that are refused: one for each fault, with its line, and one that is too large. More are
//! in `tests/cli/refused.cases`.

use crate::assertions::{Refused, assert_refused};
use po_catalog::read;
use po_syntax::{PoError, PoFault};
use std::test::Fail;

/// Each fault of a text that `read` reports at a line.
const EACH_FAULT: &[Refused] = &[
    (b"# c\n# \xc3(\n", PoFault::NotUtf8, 2),
    (b"# \x00\n", PoFault::ForbiddenByte, 1),
    (b"msgid \"\\q\" x\n", PoFault::BadEscape, 1),
    (b"msgid \"a\"\nmsgstr \"b", PoFault::UnterminatedString, 2),
    (b"\nmsgid 'a'\n", PoFault::BadToken, 2),
    (b"msgid \"a\"\nmsgid \"b\"\n", PoFault::BadOrder, 2),
    (b"msgid \"a\"\n#~ msgstr \"b\"\n", PoFault::MixedObsolete, 2),
    (
        b"msgid \"a\"\nmsgid_plural \"b\"\nmsgstr[1] \"c\"\n",
        PoFault::BadPluralIndex,
        3,
    ),
    (
        b"msgid \"\"\nmsgstr \"charset=x\"\n",
        PoFault::ForeignCharset,
        1,
    ),
];

#[test]
fn refused_texts(rt: HostRuntime) {
    for refused in EACH_FAULT {
        assert_refused(&rt, read(rt.alloc(), refused.0).err(), refused);
    }
}

/// A text of 2^31 bytes is refused before any of its bytes is looked at.
#[test]
fn too_large(rt: HostRuntime) -> Result<(), Fail> {
    let zeros = vec![in rt.alloc(); 0u8; 1 << 16]?;
    let mut text = Vec::with_capacity(rt.alloc(), 1 << 31)?;
    for _ in 0..1 << 15 {
        text.extend_from_slice(&zeros)?;
    }
    assert_eq!(rt; text.len(), 2_147_483_648);
    let wanted = PoError {
        kind: PoFault::TooLarge,
        line: 0,
    };
    assert!(rt; read(rt.alloc(), &text).err() == Some(wanted));
    Ok(())
}
