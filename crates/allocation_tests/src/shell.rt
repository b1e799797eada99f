//! The calls of po_shell.

use crate::outcomes::Outcome;
use crate::texts::ONE_MESSAGE;
use po_shell::{
    Counted, Environment, ToolFault, catalogue_path, catalogue_paths, expand, locale_candidates,
    name_lines, names, read_input, run_envsubst_in_blocks, variables_in,
};
use std::alloc::Global;

const GERMAN: Environment<'static> = Environment {
    lc_all: None,
    lc_messages: None,
    lang: Some(b"de"),
    language: None,
    textdomain: None,
    textdomaindir: Some(b"/d"),
};

/// What comes of the row of this name.
pub(crate) fn outcome(alloc: Global, row: &str) -> Outcome {
    match row {
        "names" => names_of(alloc),
        "name_lines" => of_bytes(name_lines(alloc, b"$A ${B}$A"), b"A\nB\nA\n"),
        "variables_in" => variables(alloc),
        "expand" => expanded(alloc),
        "locale_candidates" => of_list(locale_candidates(alloc, &GERMAN), b"de"),
        "catalogue_path" => of_bytes(
            catalogue_path(alloc, b"/d", b"de", b"x"),
            b"/d/de/LC_MESSAGES/x.mo",
        ),
        "catalogue_paths" => of_list(
            catalogue_paths(alloc, None, Some(b"x"), &GERMAN),
            b"/d/de/LC_MESSAGES/x.mo",
        ),
        "read_input" => read_all(alloc),
        "run_envsubst_in_blocks" => substituted(alloc),
        _ => Outcome::NoRow,
    }
}

/// What comes of a call that answers bytes.
fn of_bytes(reported: Result<Vec<u8>, ToolFault>, wanted: &[u8]) -> Outcome {
    match reported {
        Ok(bytes) => Outcome::Answered(bytes.as_slice() == wanted),
        Err(fault) => Outcome::OutOfMemory(fault == ToolFault::OutOfMemory),
    }
}

/// What comes of a call that answers a list of one.
fn of_list(reported: Result<Vec<Vec<u8>>, ToolFault>, wanted: &[u8]) -> Outcome {
    match reported {
        Ok(list) => match list.as_slice() {
            [one] => Outcome::Answered(one.as_slice() == wanted),
            _ => Outcome::Answered(false),
        },
        Err(fault) => Outcome::OutOfMemory(fault == ToolFault::OutOfMemory),
    }
}

fn names_of(alloc: Global) -> Outcome {
    match names(alloc, b"$A ${B}$A") {
        Ok(names) => Outcome::Answered(names.len() == 3),
        Err(fault) => Outcome::OutOfMemory(fault == ToolFault::OutOfMemory),
    }
}

fn variables(alloc: Global) -> Outcome {
    let Ok(entry) = b"A=v".to_vec(alloc) else {
        return Outcome::Unready;
    };
    match variables_in(alloc, &[entry]) {
        Ok(variables) => Outcome::Answered(variables.len() == 1),
        Err(_) => Outcome::OutOfMemory(true),
    }
}

fn expanded(alloc: Global) -> Outcome {
    match expand(alloc, b"a\\tb\\c") {
        Ok(text) => {
            Outcome::Answered(text.bytes.as_slice() == b"a\tb".as_slice() && text.no_newline)
        }
        Err(fault) => Outcome::OutOfMemory(fault == ToolFault::OutOfMemory),
    }
}

fn read_all(alloc: Global) -> Outcome {
    match read_input(alloc, &mut Counted::new(ONE_MESSAGE)) {
        Ok(input) => Outcome::Answered(input.as_slice() == ONE_MESSAGE),
        Err(fault) => Outcome::OutOfMemory(fault == ToolFault::OutOfMemory),
    }
}

// The writer has its room beforehand.
fn substituted(alloc: Global) -> Outcome {
    let Ok(writer) = Vec::with_capacity(alloc, 64) else {
        return Outcome::Unready;
    };
    let mut reader = Counted::new(b"$A${A}${A-x}$$A$9${".as_slice());
    let mut writer = Counted::new(writer);
    match run_envsubst_in_blocks(alloc, &mut reader, &mut writer, &[(b"A", b"v")], None) {
        Ok(()) => {
            let written = writer.into_inner();
            Outcome::Answered(written.as_slice() == b"vv${A-x}$v$9${".as_slice())
        }
        Err(fault) => Outcome::OutOfMemory(fault == ToolFault::OutOfMemory),
    }
}
