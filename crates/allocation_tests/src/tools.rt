//! The calls of po_tools.

use crate::outcomes::Outcome;
use crate::texts::{
    A, B, DUPLICATE, FUZZY_AND_OBSOLETE, MERGE, MERGED, ONE_FILE, ONE_MESSAGE, ONLY_FUZZY,
    ONLY_FUZZY_TEXT,
};
use mo_file::Order;
use po_catalog::read;
use po_shell::{Counted, ToolFault};
use po_tools::{
    CheckFault, GettextOptions, MsgfmtOptions, NgettextOptions, Run, plan_gettext, plan_msgattrib,
    plan_msgcat, plan_msgfmt, plan_msgunfmt, plan_ngettext, profile_check, run_msgattrib,
    run_msgfmt, run_msgunfmt,
};
use std::alloc::Global;
use std::slice::from_ref;

const STATISTICS: MsgfmtOptions = MsgfmtOptions {
    use_fuzzy: false,
    order: Order::Little,
    statistics: true,
    profile_check: false,
};

const SHELL: GettextOptions<'static> = GettextOptions {
    messages: &["a", "zz"],
    context: None,
    expand: true,
    no_newline: false,
    shell: true,
};

const FILES: NgettextOptions<'static> = NgettextOptions {
    context: None,
    expand: true,
    id: "f",
    plural: "fs",
    count: "x",
};

/// What comes of the row of this name.
pub(crate) fn outcome(alloc: Global, row: &str) -> Outcome {
    match row {
        "profile_check" => checked(alloc, ONE_MESSAGE, Err((0, CheckFault::NoHeader))),
        "profile_check-passed" => checked(alloc, FUZZY_AND_OBSOLETE, Ok(())),
        "plan_msgfmt" => of_run(
            plan_msgfmt(alloc, &[("<stdin>", DUPLICATE)], &STATISTICS),
            b"",
            b"pokit msgfmt: <stdin>:5: duplicate of the message at line 1\n",
        ),
        "plan_msgunfmt" => of_run(plan_msgunfmt(alloc, ONE_FILE, "<stdin>"), ONE_MESSAGE, b""),
        "plan_msgattrib" => of_run(
            plan_msgattrib(alloc, FUZZY_AND_OBSOLETE, "<stdin>", &ONLY_FUZZY),
            ONLY_FUZZY_TEXT,
            b"",
        ),
        "plan_msgcat" => of_run(
            plan_msgcat(alloc, &[("A.po", A), ("B.po", B)], &MERGE),
            MERGED,
            b"",
        ),
        "plan_gettext" => of_run(
            plan_gettext(alloc, &[("first", b"no"), ("second", ONE_FILE)], &SHELL),
            b"b zz\n",
            b"pokit gettext: first: file too short\n",
        ),
        "plan_ngettext" => of_run(
            plan_ngettext(alloc, &[("one", ONE_FILE)], &FILES),
            b"fs",
            b"",
        ),
        "run_msgfmt" | "run_msgunfmt" | "run_msgattrib" => delivered(alloc, row),
        _ => Outcome::NoRow,
    }
}

/// What comes of a plan.
fn of_run(plan: Result<Run, ToolFault>, output: &[u8], messages: &[u8]) -> Outcome {
    match plan {
        Ok(run) => Outcome::Answered(
            run.output.as_slice() == output && run.messages.as_slice() == messages,
        ),
        Err(fault) => Outcome::OutOfMemory(fault == ToolFault::OutOfMemory),
    }
}

fn checked(alloc: Global, text: &[u8], wanted: Result<(), (u32, CheckFault)>) -> Outcome {
    let Ok(catalogue) = read(alloc, text) else {
        return Outcome::Unready;
    };
    match profile_check(alloc, from_ref(&catalogue), false) {
        Err((input, CheckFault::OutOfMemory)) => Outcome::OutOfMemory(input == 0),
        reported => Outcome::Answered(reported == wanted),
    }
}

// The writers have their room beforehand.
fn delivered(alloc: Global, row: &str) -> Outcome {
    let (Ok(out), Ok(err)) = (
        Vec::with_capacity(alloc, 256),
        Vec::with_capacity(alloc, 256),
    ) else {
        return Outcome::Unready;
    };
    let mut out = Counted::new(out);
    let mut err = Counted::new(err);
    let (input, wanted) = match row {
        "run_msgfmt" => (ONE_MESSAGE, ONE_FILE),
        "run_msgunfmt" => (ONE_FILE, ONE_MESSAGE),
        _ => (FUZZY_AND_OBSOLETE, ONLY_FUZZY_TEXT),
    };
    let mut reader = Counted::new(input);
    let name = "<stdin>";
    let reported = match row {
        "run_msgfmt" => run_msgfmt(alloc, &mut reader, &mut out, &mut err, name, &STATISTICS),
        "run_msgunfmt" => run_msgunfmt(alloc, &mut reader, &mut out, &mut err, name),
        _ => run_msgattrib(alloc, &mut reader, &mut out, &mut err, name, &ONLY_FUZZY),
    };
    let out = out.into_inner();
    let err = err.into_inner();
    match reported {
        Ok(status) => Outcome::Answered(status == 0 && out.as_slice() == wanted),
        Err(fault) => Outcome::OutOfMemory(
            fault == ToolFault::OutOfMemory && out.is_empty() && err.is_empty(),
        ),
    }
}
