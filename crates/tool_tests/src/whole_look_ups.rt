//! gettext, ngettext and envsubst as wholes, over a system in memory whose calls fail in turn.
use crate::fake_system::Line;
use crate::whole_tools::{Calls, ONE_FILE, Outcome, Row, WELL, leaves};
use po_tools::Tool;
use std::alloc::Global;

/// A look-up in a catalogue of one message.
fn answer(tool: Tool, others: &'static [&'static str]) -> Row {
    Row {
        tool,
        line: Line {
            files: &[],
            others,
            output: None,
            flags: &[],
        },
        input: ONE_FILE,
        asked: 1,
        output: b"b",
        messages: b"",
        status: 0,
    }
}

/// Look-ups in a catalogue of one message.
pub(crate) fn answers() -> [Row; 2] {
    [
        answer(Tool::Gettext, &["d", "a"]),
        answer(Tool::Ngettext, &["d", "a", "c", "1"]),
    ]
}

/// The same where the catalogue can't be read: no message says so.
fn untranslated() -> [Row; 2] {
    let [gettext, ngettext] = answers();
    [
        Row {
            output: b"a",
            ..gettext
        },
        Row {
            output: b"a",
            ..ngettext
        },
    ]
}

/// An input with a variable of the environment.
pub(crate) const REPLACED: Row = Row {
    tool: Tool::Envsubst,
    line: Line {
        files: &[],
        others: &[],
        output: None,
        flags: &[],
    },
    input: b"c $A.",
    asked: 0,
    output: b"c b.",
    messages: b"",
    status: 0,
};

/// What has gone out of that where the read after so many bytes of the input fails: all that these
/// bytes decide.
const REPLACED_BEFORE: &[&[u8]] = &[b"", b"c", b"c ", b"c ", b"c ", b"c b."];

/// The call at which a row whose call of the output fails doesn't leave what it should, where one
/// does: what went out before it.
fn wrong_output(alloc: Global, row: &Row) -> Option<usize> {
    for taken in 0..row.output.len() {
        let calls = Calls {
            output: taken as u64 + 1,
            ..WELL
        };
        if !leaves(
            alloc,
            row,
            calls,
            Outcome::WriteFault,
            &row.output[..taken],
            b"",
        ) {
            return Some(taken);
        }
    }
    None
}

#[test]
fn the_output_fails(rt: HostRuntime) {
    for (index, row) in answers().iter().enumerate() {
        let wrong = wrong_output(rt.alloc(), row);
        assert!(rt; wrong.is_none(), "row {index}, after {wrong:?}");
    }
}

#[test]
fn a_catalogue_fails(rt: HostRuntime) {
    for (index, row) in untranslated().iter().enumerate() {
        for input in 1..=row.input.len() as u64 + 1 {
            let calls = Calls { input, ..WELL };
            let wanted = Outcome::Status(row.status);
            let is_right = leaves(rt.alloc(), row, calls, wanted, row.output, row.messages);
            assert!(rt; is_right, "row {index}, call {input}");
        }
    }
}

#[test]
fn the_output_with_variables_fails(rt: HostRuntime) {
    let wrong = wrong_output(rt.alloc(), &REPLACED);
    assert!(rt; wrong.is_none(), "after {wrong:?}");
}

#[test]
fn standard_input_fails(rt: HostRuntime) {
    for (read, left) in REPLACED_BEFORE.iter().enumerate() {
        let calls = Calls {
            input: read as u64 + 1,
            ..WELL
        };
        let is_right = leaves(rt.alloc(), &REPLACED, calls, Outcome::ReadFault, left, b"");
        assert!(rt; is_right, "after {read}");
    }
}
