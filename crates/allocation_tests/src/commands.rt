//! Whole commands of known_runs.

use crate::outcomes::Outcome;
use crate::texts::{ONE_FILE, ONE_MESSAGE};
use known_runs::{
    Ended, envsubst_in_memory, gettext_in_memory, msgcat_in_memory, msgfmt_in_memory,
    msgfmt_through_links_in_memory, ngettext_in_memory,
};
use known_system::Link;
use po_entry::JoinError;
use po_syntax::PoFault;
use std::alloc::Global;

const LINKS: &[Link<'static>] = &[Link {
    path: "a.mo",
    to: "b.mo",
}];

/// What comes of the row of this name.
pub(crate) fn outcome(alloc: Global, row: &str) -> Outcome {
    match row {
        "msgfmt_in_memory" => with_file(alloc, row, ONE_FILE),
        "msgfmt_through_links_in_memory" => with_file(alloc, row, ONE_FILE),
        "msgcat_in_memory" => with_file(alloc, row, ONE_MESSAGE),
        "gettext_in_memory" => looked_up(gettext_in_memory(alloc, ONE_MESSAGE, "a")),
        "ngettext_in_memory" => looked_up(ngettext_in_memory(alloc, ONE_MESSAGE, "a", "as", "1")),
        "envsubst_in_memory" => {
            of_output(envsubst_in_memory(alloc, None, b"$A", &[b"A=b"]), b"b")
        }
        _ => Outcome::NoRow,
    }
}

// Where there is too little memory, the file is as it was.
fn with_file(alloc: Global, row: &str, wanted: &[u8]) -> Outcome {
    let Ok(held) = Vec::from_slice(alloc, b"old") else {
        return Outcome::Unready;
    };
    let held = Some(held);
    let text = ONE_MESSAGE;
    let ended = match row {
        "msgfmt_in_memory" => msgfmt_in_memory(alloc, text, held),
        "msgcat_in_memory" => msgcat_in_memory(alloc, text, text, held),
        _ => msgfmt_through_links_in_memory(alloc, text, LINKS, "b.mo", held),
    };
    let Ended { result, file, .. } = ended;
    let Some(file) = file else {
        return Outcome::Answered(false);
    };
    match result {
        Ok(status) => Outcome::Answered(status == 0 && file.as_slice() == wanted),
        Err(_) => Outcome::OutOfMemory(file.as_slice() == b"old".as_slice()),
    }
}

fn looked_up(reported: Result<Ended, JoinError>) -> Outcome {
    match reported {
        Ok(ended) => of_output(ended, b"b"),
        Err(fault) => Outcome::OutOfMemory(fault.error.kind == PoFault::OutOfMemory),
    }
}

// Where there is too little memory for a copy of what was written, none is kept.
fn of_output(ended: Ended, wanted: &[u8]) -> Outcome {
    let Ended { result, out, .. } = ended;
    match (result, out.into_bytes()) {
        (Ok(status), Some(taken)) => Outcome::Answered(status == 0 && taken.as_slice() == wanted),
        _ => Outcome::OutOfMemory(true),
    }
}
