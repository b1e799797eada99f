//! What gettext and ngettext answer over their catalogues.

use po_shell::ToolFault;
use po_tools::{GettextOptions, NgettextOptions, Run, plan_gettext, plan_ngettext};

/// The message `a` with the translation `b`.
const ONE_FILE: &[u8] =
    b"\xde\x12\x04\x95\0\0\0\0\x01\0\0\0\x1c\0\0\0\x24\0\0\0\0\0\0\0\x2c\0\0\0\x01\0\0\0\x2c\0\0\0\x01\0\0\0\x2e\0\0\0a\0b\0";

/// Its first 27 bytes.
const CUT: &[u8] = b"\xde\x12\x04\x95\0\0\0\0\x01\0\0\0\x1c\0\0\0\x24\0\0\0\0\0\0\0\x2c\0\0";

const PLAIN: GettextOptions<'static> = GettextOptions {
    messages: &["a"],
    context: None,
    expand: false,
    no_newline: false,
    shell: false,
};

const SHELL: GettextOptions<'static> = GettextOptions {
    messages: &["a", "zz"],
    context: None,
    expand: false,
    no_newline: false,
    shell: true,
};

const UNENDED: GettextOptions<'static> = GettextOptions {
    messages: &["a"],
    context: None,
    expand: false,
    no_newline: true,
    shell: true,
};

const EXPANDED: GettextOptions<'static> = GettextOptions {
    messages: &["a", "x\\n\\c"],
    context: None,
    expand: true,
    no_newline: false,
    shell: true,
};

/// The options, the catalogues, the output, and the messages.
const ANSWERS: &[(GettextOptions<'static>, &[(&str, &[u8])], &[u8], &[u8])] = &[
    (
        PLAIN,
        &[("/d/de/LC_MESSAGES/x.mo", CUT)],
        b"a",
        b"pokit gettext: /d/de/LC_MESSAGES/x.mo: file too short\n",
    ),
    (
        EXPANDED,
        &[("first", b"no"), ("second", ONE_FILE)],
        b"b x\n",
        b"pokit gettext: first: file too short\n",
    ),
    (SHELL, &[("one", ONE_FILE)], b"b zz\n", b""),
    (UNENDED, &[("one", ONE_FILE)], b"b", b""),
];

/// Whether a plan writes this output and these messages with status 0.
fn answers(plan: Result<Run, ToolFault>, output: &[u8], messages: &[u8]) -> bool {
    match plan {
        Ok(run) => {
            run.output.as_slice() == output
                && run.messages.as_slice() == messages
                && run.status == 0
        }
        Err(_) => false,
    }
}

#[test]
fn answers_messages(rt: HostRuntime) {
    for (options, catalogues, output, messages) in ANSWERS {
        let plan = plan_gettext(rt.alloc(), catalogues, options);
        assert!(rt; answers(plan, output, messages), "{output:?}");
    }
}

#[test]
fn answers_a_count_that_is_no_number(rt: HostRuntime) {
    let options = NgettextOptions {
        context: None,
        expand: false,
        id: "file",
        plural: "files",
        count: "x",
    };
    let plan = plan_ngettext(rt.alloc(), &[("second", ONE_FILE)], &options);
    assert!(rt; answers(plan, b"files", b""));
}
