//! Assertions that several tests share, which are proved once.

use po_syntax::{PoError, PoFault};
use std::process::Abort;

/// A text with the fault that is reported first, and its line.
pub(crate) type Refused = (&'static [u8], PoFault, u32);

/// Asserts that the fault of a row is reported.
pub(crate) fn assert_refused(rt: &impl Abort, reported: Option<PoError>, refused: &Refused) {
    let (text, kind, line) = refused;
    let wanted = PoError {
        kind: *kind,
        line: *line,
    };
    assert_fault(rt, reported, Some(wanted), text);
}

/// Asserts what is reported of a text.
pub(crate) fn assert_fault(
    rt: &impl Abort,
    reported: Option<PoError>,
    wanted: Option<PoError>,
    text: &[u8],
) {
    assert_eq!(rt; reported, wanted, "at {}", text.escape_ascii());
}

/// Asserts what was found of a text.
pub(crate) fn assert_at(rt: &impl Abort, found: bool, text: &[u8]) {
    assert!(rt; found, "at {}", text.escape_ascii());
}

/// Asserts that a text was written.
pub(crate) fn assert_text(rt: &impl Abort, written: &[u8], wanted: &[u8]) {
    assert_eq!(rt; written, wanted);
}
