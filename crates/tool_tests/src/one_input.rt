//! The calls that read one input, over a reader and two writers of which each call fails in turn,
//! up to a run without a failure.

use mo_file::Order;
use po_shell::{Counted, Failing, ToolFault};
use po_tools::{MsgfmtOptions, Selection, Tool, run_msgattrib, run_msgfmt, run_msgunfmt};
use std::alloc::Global;

/// A call and its input, with what it writes and reports.
struct Row {
    tool: Tool,
    input: &'static [u8],
    output: &'static [u8],
    messages: &'static [u8],
}

/// The call of a writer that fails, 0 for none, and how many bytes a call takes.
type Calls = (u64, usize);

/// The call of the reader that fails, 0 for none, and the calls of the writers of the output and of
/// the messages.
type Devices = (u64, Calls, Calls);

/// No call fails, and each takes one byte.
const WELL: Calls = (0, 1);

/// No call fails, and each takes all.
const ALL: Calls = (0, 1 << 20);

/// Each call takes no byte.
const NONE: Calls = (0, 0);

const UNREAD: Result<u8, ToolFault> = Err(ToolFault::ReadFault);

const UNWRITTEN: Result<u8, ToolFault> = Err(ToolFault::WriteFault);

const ONE_MESSAGE: &[u8] = b"msgid \"a\"\nmsgstr \"b\"\n";

const ONE_FILE: &[u8] =
    b"\xde\x12\x04\x95\0\0\0\0\x01\0\0\0\x1c\0\0\0\x24\0\0\0\0\0\0\0\x2c\0\0\0\x01\0\0\0\x2c\0\0\0\x01\0\0\0\x2e\0\0\0a\0b\0";

const ROWS: &[Row] = &[
    Row {
        tool: Tool::Msgfmt,
        input: ONE_MESSAGE,
        output: ONE_FILE,
        messages: b"1 translated message.\n",
    },
    Row {
        tool: Tool::Msgunfmt,
        input: ONE_FILE,
        output: ONE_MESSAGE,
        messages: b"",
    },
    Row {
        tool: Tool::Msgattrib,
        input: ONE_MESSAGE,
        output: b"#, fuzzy\nmsgid \"a\"\nmsgstr \"b\"\n",
        messages: b"",
    },
];

const STATISTICS: MsgfmtOptions = MsgfmtOptions {
    use_fuzzy: false,
    order: Order::Little,
    statistics: true,
    profile_check: false,
};

const SET_FUZZY: Selection = Selection {
    translated: false,
    untranslated: false,
    no_fuzzy: false,
    only_fuzzy: false,
    no_obsolete: false,
    only_obsolete: false,
    set_fuzzy: true,
    clear_fuzzy: false,
    set_obsolete: false,
    clear_obsolete: false,
    clear_previous: false,
    empty: false,
};

/// Whether a row's call over such devices, the reader of single bytes, returns this and leaves this
/// output and these messages.
fn leaves(
    alloc: Global,
    row: &Row,
    devices: Devices,
    outcome: Result<u8, ToolFault>,
    output: &[u8],
    messages: &[u8],
) -> bool {
    let (failing_read, to_out, to_err) = devices;
    let mut reader = Counted::new(Failing::new(row.input, failing_read, 1));
    let mut out = Counted::new(Failing::new(Vec::new(alloc), to_out.0, to_out.1));
    let mut err = Counted::new(Failing::new(Vec::new(alloc), to_err.0, to_err.1));
    let name = "<stdin>";
    let returned = match row.tool {
        Tool::Msgfmt => run_msgfmt(alloc, &mut reader, &mut out, &mut err, name, &STATISTICS),
        Tool::Msgunfmt => run_msgunfmt(alloc, &mut reader, &mut out, &mut err, name),
        _ => run_msgattrib(alloc, &mut reader, &mut out, &mut err, name, &SET_FUZZY),
    };
    let gone_out = out.into_inner().into_inner();
    let gone_to_err = err.into_inner().into_inner();
    returned == outcome && gone_out.as_slice() == output && gone_to_err.as_slice() == messages
}

/// Whether a row's call over such devices comes to its end.
fn ends_well(alloc: Global, row: &Row, devices: Devices) -> bool {
    leaves(alloc, row, devices, Ok(0), row.output, row.messages)
}

/// Whether a row's call writes nothing where a call of the reader fails: one for each byte, and one
/// that finds the end.
fn stops_at_each_read(alloc: Global, row: &Row) -> bool {
    let calls = row.input.len() as u64 + 1;
    for call in 1..=calls {
        if !leaves(alloc, row, (call, WELL, WELL), UNREAD, b"", b"") {
            return false;
        }
    }
    ends_well(alloc, row, (calls + 1, WELL, WELL))
}

/// Whether a row's call stops where a call of the writer of its output fails, one for each byte.
fn stops_at_each_write(alloc: Global, row: &Row) -> bool {
    for written in 0..row.output.len() {
        let failing = (written as u64 + 1, 1);
        let output = &row.output[..written];
        if !leaves(alloc, row, (0, failing, WELL), UNWRITTEN, output, b"") {
            return false;
        }
    }
    let after = (row.output.len() as u64 + 1, 1);
    ends_well(alloc, row, (0, after, WELL))
}

/// Whether a row's call stops where a call of the writer of its messages fails, one for each byte.
fn stops_at_each_message(alloc: Global, row: &Row) -> bool {
    for written in 0..row.messages.len() {
        let failing = (written as u64 + 1, 1);
        let messages = &row.messages[..written];
        if !leaves(
            alloc,
            row,
            (0, WELL, failing),
            UNWRITTEN,
            row.output,
            messages,
        ) {
            return false;
        }
    }
    let after = (row.messages.len() as u64 + 1, 1);
    ends_well(alloc, row, (0, WELL, after))
}

#[test]
fn stops_at_each_call_of_the_reader(rt: HostRuntime) {
    for (index, row) in ROWS.iter().enumerate() {
        assert!(rt; stops_at_each_read(rt.alloc(), row), "row {index}");
    }
}

#[test]
fn stops_at_each_call_of_a_writer(rt: HostRuntime) {
    for (index, row) in ROWS.iter().enumerate() {
        assert!(rt; stops_at_each_write(rt.alloc(), row), "row {index}");
        assert!(rt;
            stops_at_each_message(rt.alloc(), row),
            "messages of row {index}"
        );
    }
}

#[test]
fn writes_to_writers_that_take_all_or_none(rt: HostRuntime) {
    let first = (1, 1 << 20);
    for (index, row) in ROWS.iter().enumerate() {
        let by_all = ends_well(rt.alloc(), row, (0, ALL, ALL));
        let at_first = leaves(rt.alloc(), row, (0, first, ALL), UNWRITTEN, b"", b"");
        let by_none = leaves(rt.alloc(), row, (0, NONE, NONE), UNWRITTEN, b"", b"");
        assert!(rt; by_all && at_first && by_none, "row {index}");
    }
    let told = &ROWS[0];
    let by_none = leaves(
        rt.alloc(),
        told,
        (0, ALL, NONE),
        UNWRITTEN,
        told.output,
        b"",
    );
    let at_first = leaves(
        rt.alloc(),
        told,
        (0, ALL, first),
        UNWRITTEN,
        told.output,
        b"",
    );
    assert!(rt; by_none && at_first, "messages");
}
