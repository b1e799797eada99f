//! Each tool as a whole, over a system in memory whose calls fail in turn: what is returned, and
//! what has been written then.
use crate::fake_system::{FakeFiles, FakeSource, Line};
use po_shell::{Counted, Failing};
use po_tools::{ProgramFault, Tool, run};
use runs::OutputSystem;
use std::alloc::Global;

/// A tool with its command line and input, and what it writes.
#[derive(Drop)]
pub(crate) struct Row {
    pub(crate) tool: Tool,
    pub(crate) line: Line,
    pub(crate) input: &'static [u8],
    pub(crate) asked: u32,
    pub(crate) output: &'static [u8],
    pub(crate) messages: &'static [u8],
    pub(crate) status: u8,
}

/// The call that fails of each input, of the file and standard output, and of standard error; 0 for
/// none.
#[derive(Clone, Copy)]
pub(crate) struct Calls {
    pub(crate) input: u64,
    pub(crate) output: u64,
    pub(crate) messages: u64,
}

/// No call fails.
pub(crate) const WELL: Calls = Calls {
    input: 0,
    output: 0,
    messages: 0,
};

/// What a tool comes to.
#[derive(Clone, Copy, PartialEq, Eq)]
pub(crate) enum Outcome {
    Status(u8),
    ReadFault,
    WriteFault,
    OtherFault,
}

const ONE_MESSAGE: &[u8] = b"msgid \"a\"\nmsgstr \"b\"\n";

pub(crate) const ONE_FILE: &[u8] =
    b"\xde\x12\x04\x95\0\0\0\0\x01\0\0\0\x1c\0\0\0\x24\0\0\0\0\0\0\0\x2c\0\0\0\x01\0\0\0\x2c\0\0\0\x01\0\0\0\x2e\0\0\0a\0b\0";

pub(crate) const ROWS: &[Row] = &[
    Row {
        tool: Tool::Msgfmt,
        line: Line {
            files: &["-", "-"],
            others: &[],
            output: None,
            flags: &["statistics"],
        },
        input: ONE_MESSAGE,
        asked: 1,
        output: ONE_FILE,
        messages: b"1 translated message.\n",
        status: 0,
    },
    Row {
        tool: Tool::Msgfmt,
        line: Line {
            files: &["a.po", "b.po"],
            others: &[],
            output: Some("-"),
            flags: &[],
        },
        input: ONE_MESSAGE,
        asked: 2,
        output: b"",
        messages: b"pokit msgfmt: b.po:1: duplicate of the message at a.po:1\n",
        status: 1,
    },
    Row {
        tool: Tool::Msgunfmt,
        line: Line {
            files: &[],
            others: &[],
            output: None,
            flags: &[],
        },
        input: ONE_FILE,
        asked: 1,
        output: ONE_MESSAGE,
        messages: b"",
        status: 0,
    },
    Row {
        tool: Tool::Msgunfmt,
        line: Line {
            files: &[],
            others: &[],
            output: None,
            flags: &[],
        },
        input: b"\xde\x12\x04\x95",
        asked: 1,
        output: b"",
        messages: b"pokit msgunfmt: <stdin>: file too short\n",
        status: 1,
    },
    Row {
        tool: Tool::Msgattrib,
        line: Line {
            files: &["a.po"],
            others: &[],
            output: Some("b.po"),
            flags: &["set-fuzzy"],
        },
        input: ONE_MESSAGE,
        asked: 1,
        output: b"#, fuzzy\nmsgid \"a\"\nmsgstr \"b\"\n",
        messages: b"",
        status: 0,
    },
    Row {
        tool: Tool::Msgcat,
        line: Line {
            files: &["a.po", "b.po"],
            others: &[],
            output: None,
            flags: &[],
        },
        input: ONE_MESSAGE,
        asked: 2,
        output: ONE_MESSAGE,
        messages: b"",
        status: 0,
    },
];

/// Whether this is left of the output: in the file, where there is one, and else on standard
/// output.
fn is_left(files: &FakeFiles, gone_out: &[u8], output: &[u8]) -> bool {
    if files.is_there {
        files.closed.as_slice() == output && gone_out.is_empty()
    } else {
        gone_out == output
    }
}

/// Whether a tool over a system with these calls comes to this outcome, and leaves this output and
/// these messages.
pub(crate) fn leaves(
    alloc: Global,
    row: &Row,
    calls: Calls,
    wanted: Outcome,
    output: &[u8],
    messages: &[u8],
) -> bool {
    let mut source = FakeSource {
        text: row.input,
        failing: calls.input,
        asked: 0,
    };
    let mut reader = Counted::new(Failing::new(row.input, calls.input, 1));
    let mut system = OutputSystem {
        files: FakeFiles {
            alloc,
            failing: calls.output,
            closed: Vec::new(alloc),
            is_there: false,
        },
        out: Counted::new(Failing::new(Vec::new(alloc), calls.output, 1)),
        err: Counted::new(Failing::new(Vec::new(alloc), calls.messages, 1)),
    };
    let outcome = match run(
        alloc,
        row.tool,
        &mut source,
        &mut reader,
        &mut system,
        &row.line,
    ) {
        Ok(status) => Outcome::Status(status),
        Err(ProgramFault::ReadFault(_)) => Outcome::ReadFault,
        Err(ProgramFault::WriteFault) => Outcome::WriteFault,
        Err(_) => Outcome::OtherFault,
    };
    let OutputSystem { files, out, err } = system;
    let gone_out = out.into_inner().into_inner();
    let gone_to_err = err.into_inner().into_inner();
    let is_written = is_left(&files, gone_out.as_slice(), output);
    outcome == wanted
        && is_written
        && gone_to_err.as_slice() == messages
        && (wanted == Outcome::ReadFault || source.asked == row.asked)
}

/// The first call of an input at which a row doesn't leave what it should, where one does.
fn wrong_read(alloc: Global, row: &Row) -> Option<u64> {
    for input in 1..=row.input.len() as u64 + 1 {
        let calls = Calls { input, ..WELL };
        if !leaves(alloc, row, calls, Outcome::ReadFault, b"", b"") {
            return Some(input);
        }
    }
    None
}

/// After how many bytes of the output a failing call doesn't leave what it should, where one does:
/// no file where one is made, and else a prefix on standard output; and no message.
fn wrong_output(alloc: Global, row: &Row) -> Option<usize> {
    let is_file = row.tool == Tool::Msgfmt || row.line.output.is_some();
    for taken in 0..row.output.len() {
        let calls = Calls {
            output: taken as u64 + 1,
            ..WELL
        };
        let prefix = &row.output[..taken];
        let left: &[u8] = if is_file { b"" } else { prefix };
        if !leaves(alloc, row, calls, Outcome::WriteFault, left, b"") {
            return Some(taken);
        }
    }
    None
}

/// After how many bytes of the messages a failing call doesn't leave what it should, where one
/// does: the whole output, and the messages before it.
fn wrong_messages(alloc: Global, row: &Row) -> Option<usize> {
    for taken in 0..row.messages.len() {
        let calls = Calls {
            messages: taken as u64 + 1,
            ..WELL
        };
        let before = &row.messages[..taken];
        if !leaves(alloc, row, calls, Outcome::WriteFault, row.output, before) {
            return Some(taken);
        }
    }
    None
}

#[test]
fn each_input_fails(rt: HostRuntime) {
    for (index, row) in ROWS.iter().enumerate() {
        let wrong = wrong_read(rt.alloc(), row);
        assert!(rt; wrong.is_none(), "row {index}, call {wrong:?}");
    }
}

#[test]
fn each_output_fails(rt: HostRuntime) {
    for (index, row) in ROWS.iter().enumerate() {
        let wrong = wrong_output(rt.alloc(), row);
        assert!(rt; wrong.is_none(), "row {index}, after {wrong:?}");
    }
}

#[test]
fn the_messages_fail(rt: HostRuntime) {
    for (index, row) in ROWS.iter().enumerate() {
        let wrong = wrong_messages(rt.alloc(), row);
        assert!(rt; wrong.is_none(), "row {index}, after {wrong:?}");
    }
}
