//! The arguments of the tools, the lines of the program's faults, and the files that it makes.

use crate::fake_system::Line;
use po_shell::{Counted, Failing, ToolFault};
use po_tools::{
    EnvsubstArguments, LookUp, LookUpCommand, ProgramFault, Run, report_fault, shown_name,
};
use std::alloc::Global;

/// A fault, with its tool, and its line.
const FAULTS: &[(Option<&str>, ProgramFault<'static>, &[u8])] = &[
    (
        None,
        ProgramFault::NotText,
        b"pokit: arguments are not UTF-8\n",
    ),
    (
        Some("gettext"),
        ProgramFault::WrongArguments,
        b"pokit gettext: wrong number of arguments\n",
    ),
    (
        Some("msgfmt"),
        ProgramFault::CannotOpen("A.po"),
        b"pokit msgfmt: A.po: cannot open\n",
    ),
    (
        Some("msgfmt"),
        ProgramFault::CannotCreate("a.mo"),
        b"pokit msgfmt: a.mo: cannot create\n",
    ),
    (
        Some("msgfmt"),
        ProgramFault::ReadFault("A.po"),
        b"pokit msgfmt: A.po: read fault\n",
    ),
    (
        Some("msgfmt"),
        ProgramFault::WriteFault,
        b"pokit msgfmt: write fault\n",
    ),
    (
        Some("msgfmt"),
        ProgramFault::OutOfMemory,
        b"pokit msgfmt: out of memory\n",
    ),
];

/// Whether a fault is reported by this line.
fn is_reported(alloc: Global, tool: Option<&str>, fault: ProgramFault<'_>, line: &[u8]) -> bool {
    let mut err = Counted::new(Vec::new(alloc));
    let reported = report_fault(&mut err, tool, fault);
    let gone_out = err.into_inner();
    reported.is_ok() && gone_out.as_slice() == line
}

/// A command line with these arguments alone.
fn line_of(others: &'static [&'static str]) -> Line {
    Line {
        files: &[],
        others,
        output: None,
        flags: &[],
    }
}

#[test]
fn takes_the_arguments_of_gettext(rt: HostRuntime) {
    let line = line_of(&["t", "a"]);
    let is_taken = match LookUpCommand::of_gettext(&line) {
        Ok(command) => match command.look_up {
            LookUp::Messages(options) => {
                command.argument == Some("t") && options.messages == ["a"].as_slice()
            }
            LookUp::PluralForm(_) => false,
        },
        Err(_) => false,
    };
    assert!(rt; is_taken);
}

#[test]
fn takes_the_arguments_of_ngettext(rt: HostRuntime) {
    let line = line_of(&["t", "f", "fs", "1"]);
    let is_taken = match LookUpCommand::of_ngettext(&line) {
        Ok(command) => match command.look_up {
            LookUp::Messages(_) => false,
            LookUp::PluralForm(options) => {
                command.argument == Some("t")
                    && [options.id, options.plural, options.count] == ["f", "fs", "1"]
            }
        },
        Err(_) => false,
    };
    assert!(rt; is_taken);
}

#[test]
fn takes_the_arguments_of_envsubst(rt: HostRuntime) {
    let taken = EnvsubstArguments::of(true, &["$A"]);
    assert!(rt; matches!(taken, Some(EnvsubstArguments::Names("$A"))));
}

#[test]
fn reports_faults_in_lines(rt: HostRuntime) {
    for (tool, fault, line) in FAULTS {
        assert!(rt; is_reported(rt.alloc(), *tool, *fault, line), "{line:?}");
    }
}

#[test]
fn reports_a_fault_in_one_write(rt: HostRuntime) {
    let mut once = Counted::new(Failing::new(Vec::new(rt.alloc()), 2, 100));
    let fault = ProgramFault::CannotOpen("a.po");
    let reported = report_fault(&mut once, Some("msgfmt"), fault);
    assert!(rt; reported.is_ok());
}

#[test]
fn reports_a_writer_that_fails(rt: HostRuntime) {
    let mut full = Counted::new(Failing::new(Vec::new(rt.alloc()), 1, 1));
    let reported = report_fault(&mut full, None, ProgramFault::NotText);
    assert!(rt; reported == Err(ToolFault::WriteFault));
}

/// Whether there is something to write, the argument for the output, and the file that is made.
const FILES: &[(bool, &str, Option<&str>)] = &[
    (true, "a.mo", Some("a.mo")),
    (true, "-", None),
    (false, "a.mo", None),
];

/// Whether a run makes this file.
fn makes(alloc: Global, create: bool, argument: &str, file: Option<&str>) -> bool {
    let run = Run {
        output: Vec::new(alloc),
        create,
        messages: Vec::new(alloc),
        status: 0,
    };
    run.output_file(argument) == file
}

#[test]
fn makes_a_file_where_there_is_something_to_write(rt: HostRuntime) {
    for (create, argument, file) in FILES {
        assert!(rt; makes(rt.alloc(), *create, argument, *file), "{argument}");
    }
}

#[test]
fn shows_names_of_inputs(rt: HostRuntime) {
    assert!(rt; [shown_name("-"), shown_name("-a")] == ["<stdin>", "-a"]);
}
