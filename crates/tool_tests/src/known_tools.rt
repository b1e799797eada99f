//! Each tool as a whole, over a system whose contents are known, where no call fails: the output,
//! the messages and the status.
use crate::fake_system::Line;
use crate::whole_look_ups::{REPLACED, answers};
use crate::whole_tools::{ROWS, Row};
use known_system::{KnownFiles, KnownSource, Named, Questions, Told};
use po_shell::Counted;
use po_tools::{Tool, run};
use runs::OutputSystem;
use std::alloc::Global;

/// Where the catalogue of `d` is in German.
const D_MO: &str = "/usr/share/locale/de/LC_MESSAGES/d.mo";

/// The environment as envsubst sees it.
const ENTRIES: &[&[u8]] = &[b"A=b"];

/// The path of a row's output file, or `-`.
fn output_of(row: &Row) -> &'static str {
    match (row.line.output, row.tool) {
        (Some(path), _) => path,
        (None, Tool::Msgfmt) => "messages.mo",
        (None, _) => "-",
    }
}

/// A file of this name.
fn named(name: &'static str, bytes: &'static [u8]) -> Named<'static> {
    Named { name, bytes }
}

/// A source of these inputs, and of an environment.
fn source_of<'a>(
    files: &'a [Named<'a>],
    standard: &'a [u8],
    variables: &'a [Named<'a>],
) -> KnownSource<'a> {
    KnownSource {
        files,
        standard,
        variables,
        entries: ENTRIES,
        asked: Questions::new(),
    }
}

/// Whether a row leaves its output, its messages and its status where all inputs are its input.
fn leaves(alloc: Global, row: &Row) -> bool {
    let files = [
        named("a.po", row.input),
        named("b.po", row.input),
        named(D_MO, row.input),
    ];
    let variables = [named("LANG", b"de")];
    let mut source = source_of(&files, row.input, &variables);
    let mut reader = Counted::new(row.input);
    let mut system = OutputSystem {
        files: KnownFiles::new(alloc),
        out: Told::new(alloc),
        err: Told::new(alloc),
    };
    let ran = run(
        alloc,
        row.tool,
        &mut source,
        &mut reader,
        &mut system,
        &row.line,
    );
    let is_ended = match ran {
        Ok(status) => status == row.status,
        Err(_) => false,
    };
    let OutputSystem { files, out, err } = system;
    is_ended
        && is_told(err, row.messages)
        && match files.into_bytes(output_of(row)) {
            Some(file) => file.as_slice() == row.output && is_told(out, b""),
            None => is_told(out, row.output),
        }
}

/// Whether a writer took these bytes.
fn is_told(told: Told, bytes: &[u8]) -> bool {
    match told.into_bytes() {
        Some(taken) => taken.as_slice() == bytes,
        None => false,
    }
}

#[test]
fn each_tool_runs(rt: HostRuntime) {
    for (index, row) in ROWS.iter().enumerate() {
        assert!(rt; leaves(rt.alloc(), row), "row {index}");
    }
}

#[test]
fn messages_are_looked_up(rt: HostRuntime) {
    for (index, row) in answers().iter().enumerate() {
        assert!(rt; leaves(rt.alloc(), row), "row {index}");
    }
}

#[test]
fn variables_are_replaced(rt: HostRuntime) {
    assert!(rt; leaves(rt.alloc(), &REPLACED));
}
