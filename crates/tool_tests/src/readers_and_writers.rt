//! Readers and writers that fail or move few bytes a call: what is reported, and what has gone out.

use po_shell::{
    Counted, Failing, Substituter, ToolFault, put_all, read_input, run_envsubst,
    run_envsubst_in_blocks,
};
use po_tools::{Run, deliver};
use std::alloc::{AllocError, Global};
use std::test::Fail;

/// What is read by single bytes.
const THREE_BYTES: &[u8] = b"ab$";

/// A text with two references.
const REFERENCES: &[u8] = b"$A and ${A}";

/// What comes of it where `$A` stands for `v`.
const REPLACED: &[u8] = b"v and v";

const A: &[(&[u8], &[u8])] = &[(b"A", b"v")];

const READ_FAULT: Result<(), ToolFault> = Err(ToolFault::ReadFault);

const WRITE_FAULT: Result<(), ToolFault> = Err(ToolFault::WriteFault);

/// The call of a device that fails, 0 for none, and how many bytes a call moves.
type Calls = (u64, usize);

/// No call fails, and each moves one byte.
const WELL: Calls = (0, 1);

/// A text and the variables, the calls of the reader and of the writer, what is reported, and what
/// has gone out where each piece is written at once.
type Substitution = (
    &'static [u8],
    &'static [(&'static [u8], &'static [u8])],
    Calls,
    Calls,
    Result<(), ToolFault>,
    &'static [u8],
);

const SUBSTITUTIONS: &[Substitution] = &[
    (b"$A and $A", A, (0, 1), (0, 7), Ok(()), b"v and v"),
    (b"$A and $A", A, (0, 2), (0, 7), Ok(()), b"v and v"),
    (b"$A and $A", A, (0, 3), (0, 7), Ok(()), b"v and v"),
    (THREE_BYTES, &[], (1, 1), (0, 3), READ_FAULT, b""),
    (THREE_BYTES, &[], (2, 1), (0, 3), READ_FAULT, b"a"),
    (THREE_BYTES, &[], (3, 1), (0, 3), READ_FAULT, b"ab"),
    (THREE_BYTES, &[], (4, 1), (0, 3), READ_FAULT, b"ab"),
    (REFERENCES, A, (1, 1), WELL, READ_FAULT, b""),
    (REFERENCES, A, (2, 1), WELL, READ_FAULT, b""),
    (REFERENCES, A, (3, 1), WELL, READ_FAULT, b""),
    (REFERENCES, A, (4, 1), WELL, READ_FAULT, b"v "),
    (REFERENCES, A, (5, 1), WELL, READ_FAULT, b"v a"),
    (REFERENCES, A, (6, 1), WELL, READ_FAULT, b"v an"),
    (REFERENCES, A, (7, 1), WELL, READ_FAULT, b"v and"),
    (REFERENCES, A, (8, 1), WELL, READ_FAULT, b"v and "),
    (REFERENCES, A, (9, 1), WELL, READ_FAULT, b"v and "),
    (REFERENCES, A, (10, 1), WELL, READ_FAULT, b"v and "),
    (REFERENCES, A, (11, 1), WELL, READ_FAULT, b"v and "),
    (REFERENCES, A, (12, 1), WELL, READ_FAULT, REPLACED),
    (REFERENCES, A, (13, 1), WELL, Ok(()), REPLACED),
    (REFERENCES, A, (13, 1), (8, 1), Ok(()), REPLACED),
    (REFERENCES, A, WELL, (1, 1), WRITE_FAULT, b""),
    (REFERENCES, A, WELL, (2, 1), WRITE_FAULT, b"v"),
    (REFERENCES, A, WELL, (3, 1), WRITE_FAULT, b"v "),
    (REFERENCES, A, WELL, (4, 1), WRITE_FAULT, b"v a"),
    (REFERENCES, A, WELL, (5, 1), WRITE_FAULT, b"v an"),
    (REFERENCES, A, WELL, (6, 1), WRITE_FAULT, b"v and"),
    (REFERENCES, A, WELL, (7, 1), WRITE_FAULT, b"v and "),
    (REFERENCES, A, WELL, (0, 1 << 20), Ok(()), REPLACED),
    (REFERENCES, A, WELL, (0, 0), WRITE_FAULT, b""),
];

/// The calls of a writer, what is reported, and what has gone out.
type Write = (Calls, Result<(), ToolFault>, &'static [u8]);

const WRITES: &[Write] = &[
    ((0, 1), Ok(()), b"ab"),
    ((2, 1), WRITE_FAULT, b"a"),
    ((1, 2), WRITE_FAULT, b""),
    ((0, 0), WRITE_FAULT, b""),
];

/// The calls of the writers of the output and of the messages, what is reported, and what has gone
/// out to each.
type Delivery = (
    Calls,
    Calls,
    Result<(), ToolFault>,
    &'static [u8],
    &'static [u8],
);

const DELIVERIES: &[Delivery] = &[
    ((0, 1), (0, 1), Ok(()), b"ab", b"c"),
    ((2, 1), (0, 1), WRITE_FAULT, b"a", b""),
    ((0, 1), (1, 1), WRITE_FAULT, b"ab", b""),
    ((0, 0), (0, 0), WRITE_FAULT, b"", b""),
];

/// Whether an input is read to this end; `None` is a read fault.
fn is_read(alloc: Global, failing_call: u64, wanted: Option<&[u8]>) -> bool {
    let mut reader = Counted::new(Failing::new(THREE_BYTES, failing_call, 1));
    match read_input(alloc, &mut reader) {
        Ok(input) => wanted == Some(input.as_slice()),
        Err(fault) => fault == ToolFault::ReadFault && wanted.is_none(),
    }
}

/// Whether envsubst over such devices reports this, and this has gone out.
fn substitutes(alloc: Global, row: &Substitution) -> bool {
    let (text, variables, reads, writes, reported, written) = *row;
    let mut reader = Counted::new(Failing::new(text, reads.0, reads.1));
    let mut writer = Counted::new(Failing::new(Vec::new(alloc), writes.0, writes.1));
    let outcome = run_envsubst(&mut reader, &mut writer, variables, None);
    let gone_out = writer.into_inner().into_inner();
    outcome == reported && gone_out.as_slice() == written
}

/// Whether envsubst with its output in blocks reports the same, and as much has gone out.
fn substitutes_in_blocks(alloc: Global, row: &Substitution) -> bool {
    let (text, variables, reads, writes, reported, written) = *row;
    let mut reader = Counted::new(Failing::new(text, reads.0, reads.1));
    let mut writer = Counted::new(Failing::new(Vec::new(alloc), writes.0, writes.1));
    let outcome = run_envsubst_in_blocks(alloc, &mut reader, &mut writer, variables, None);
    let gone_out = writer.into_inner().into_inner();
    outcome == reported && (outcome.is_err() || gone_out.as_slice() == written)
}

/// Whether `ab` put to such a writer reports this, and this has gone out.
fn puts(alloc: Global, row: &Write) -> bool {
    let (calls, reported, written) = *row;
    let mut writer = Counted::new(Failing::new(Vec::new(alloc), calls.0, calls.1));
    let outcome = put_all(&mut writer, b"ab");
    let gone_out = writer.into_inner().into_inner();
    outcome == reported && gone_out.as_slice() == written
}

/// A run with the output `ab` and the message `c`.
fn two_texts(alloc: Global) -> Result<Run, AllocError> {
    Ok(Run {
        output: Vec::from_slice(alloc, b"ab")?,
        create: true,
        messages: Vec::from_slice(alloc, b"c")?,
        status: 0,
    })
}

/// Whether a run that is delivered to such writers reports this, and this has gone out to each.
fn delivers(alloc: Global, run: &Run, row: &Delivery) -> bool {
    let (to_out, to_err, reported, output, messages) = *row;
    let mut out = Counted::new(Failing::new(Vec::new(alloc), to_out.0, to_out.1));
    let mut err = Counted::new(Failing::new(Vec::new(alloc), to_err.0, to_err.1));
    let outcome = deliver(run, &mut out, &mut err);
    let gone_out = out.into_inner().into_inner();
    let gone_to_err = err.into_inner().into_inner();
    outcome == reported && gone_out.as_slice() == output && gone_to_err.as_slice() == messages
}

#[test]
fn reports_a_reader_that_fails(rt: HostRuntime) {
    for call in 1..6 {
        let wanted = if call < 5 { None } else { Some(THREE_BYTES) };
        assert!(rt; is_read(rt.alloc(), call, wanted), "at call {call}");
    }
}

#[test]
fn substitutes_up_to_a_fault(rt: HostRuntime) {
    for (row, substitution) in SUBSTITUTIONS.iter().enumerate() {
        assert!(rt;
            substitutes(rt.alloc(), substitution)
                && substitutes_in_blocks(rt.alloc(), substitution),
            "row {row}"
        );
    }
}

#[test]
fn reports_a_writer_that_fails(rt: HostRuntime) {
    for (row, write) in WRITES.iter().enumerate() {
        assert!(rt; puts(rt.alloc(), write), "row {row}");
    }
}

#[test]
fn writes_nothing_after_a_write_fault(rt: HostRuntime) {
    let mut writer = Counted::new(Failing::new(Vec::new(rt.alloc()), 2, 1));
    let mut substituter = Substituter::new(&[], None);
    let reported = [
        substituter.feed(b"ab", &mut writer),
        substituter.feed(b"c", &mut writer),
        substituter.finish(&mut writer),
    ];
    let gone_out = writer.into_inner().into_inner();
    assert!(rt; reported == [WRITE_FAULT; 3] && gone_out.as_slice() == b"a".as_slice());
}

#[test]
fn delivers_up_to_a_write_fault(rt: HostRuntime) -> Result<(), Fail> {
    let run = two_texts(rt.alloc())?;
    for (row, delivery) in DELIVERIES.iter().enumerate() {
        assert!(rt; delivers(rt.alloc(), &run, delivery), "row {row}");
    }
    Ok(())
}
