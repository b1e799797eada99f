//! Whole commands over a system whose contents are known: files that are replaced or stay, links,
//! and what is told.
use known_runs::{
    Ended, envsubst_in_memory, gettext_in_memory, msgcat_in_memory, msgfmt_in_memory,
    msgfmt_through_links_in_memory, ngettext_in_memory,
};
use known_system::{Link, Told};
use po_entry::JoinError;
use std::alloc::Global;

/// What a command comes to: its status, or `None`, its file, and what it writes and tells.
type End<'a> = (Option<u8>, Option<&'a [u8]>, &'a [u8], &'a [u8]);

const ONE_MESSAGE: &[u8] = b"msgid \"a\"\nmsgstr \"b\"\n";

const NO_MESSAGE: &[u8] = b"#~ msgid \"a\"\n#~ msgstr \"b\"\n";

const BAD_TEXT: &[u8] = b"\nmsgid \"a\nmsgstr \"b\"\n";

const ONE_FILE: &[u8] =
    b"\xde\x12\x04\x95\0\0\0\0\x01\0\0\0\x1c\0\0\0\x24\0\0\0\0\0\0\0\x2c\0\0\0\x01\0\0\0\x2c\0\0\0\x01\0\0\0\x2e\0\0\0a\0b\0";

const OLD: Option<&[u8]> = Some(b"old");

/// Texts, what `a.mo` held, and what msgfmt comes to.
const COMPILED: &[(&[u8], Option<&[u8]>, End<'static>)] = &[
    (ONE_MESSAGE, None, (Some(0), Some(ONE_FILE), b"", b"")),
    (ONE_MESSAGE, OLD, (Some(0), Some(ONE_FILE), b"", b"")),
    (NO_MESSAGE, None, (Some(0), None, b"", b"")),
    (NO_MESSAGE, OLD, (Some(0), OLD, b"", b"")),
    (
        BAD_TEXT,
        OLD,
        (
            Some(1),
            OLD,
            b"",
            b"pokit msgfmt: a.po:2: string not closed\n",
        ),
    ),
];

const TWO_LINKS: &[Link<'static>] = &[
    Link {
        path: "a.mo",
        to: "d/b.mo",
    },
    Link {
        path: "d/b.mo",
        to: "c.mo",
    },
];

const AROUND: &[Link<'static>] = &[Link {
    path: "a.mo",
    to: "a.mo",
}];

/// Links, a path, what it held, and what msgfmt comes to there.
const LINKED: &[(&[Link<'static>], &str, Option<&[u8]>, End<'static>)] = &[
    (&[], "a.mo", OLD, (Some(0), Some(ONE_FILE), b"", b"")),
    (
        TWO_LINKS,
        "d/c.mo",
        OLD,
        (Some(0), Some(ONE_FILE), b"", b""),
    ),
    (
        TWO_LINKS,
        "d/c.mo",
        None,
        (Some(0), Some(ONE_FILE), b"", b""),
    ),
    (TWO_LINKS, "a.mo", None, (Some(0), None, b"", b"")),
    (AROUND, "b.mo", OLD, (None, OLD, b"", b"")),
];

/// A copy of the bytes, where there are any.
fn copy_of(alloc: Global, bytes: Option<&[u8]>) -> Option<Vec<u8>> {
    Vec::from_slice(alloc, bytes?).ok()
}

/// Whether a writer took these bytes.
fn is_told(told: Told, bytes: &[u8]) -> bool {
    match told.into_bytes() {
        Some(taken) => taken.as_slice() == bytes,
        None => false,
    }
}

/// Whether a command has come to this.
fn is_end(ended: Ended, wanted: End<'_>) -> bool {
    let Ended {
        result,
        file,
        out,
        err,
    } = ended;
    let is_file = match (&file, wanted.1) {
        (Some(file), Some(bytes)) => file.as_slice() == bytes,
        (None, None) => true,
        _ => false,
    };
    result.ok() == wanted.0 && is_file && is_told(out, wanted.2) && is_told(err, wanted.3)
}

#[test]
fn a_text_is_compiled(rt: HostRuntime) {
    for (index, (text, held, wanted)) in COMPILED.iter().enumerate() {
        let held = copy_of(rt.alloc(), *held);
        let ended = msgfmt_in_memory(rt.alloc(), text, held);
        assert!(rt; is_end(ended, *wanted), "row {index}");
    }
}

#[test]
fn links_are_followed(rt: HostRuntime) {
    for (index, (links, place, held, wanted)) in LINKED.iter().enumerate() {
        let held = copy_of(rt.alloc(), *held);
        let ended = msgfmt_through_links_in_memory(rt.alloc(), ONE_MESSAGE, links, place, held);
        assert!(rt; is_end(ended, *wanted), "row {index}");
    }
}

#[test]
fn texts_are_merged(rt: HostRuntime) {
    let held = copy_of(rt.alloc(), OLD);
    let ended = msgcat_in_memory(rt.alloc(), ONE_MESSAGE, ONE_MESSAGE, held);
    assert!(rt; is_end(ended, (Some(0), Some(ONE_MESSAGE), b"", b"")));
}

/// A text with a rule of two forms.
const FILES: &[u8] =
    b"msgid \"\"\nmsgstr \"Plural-Forms: nplurals=2; plural=n>1;\\n\"\nmsgid \"file\"\nmsgid_plural \"files\"\nmsgstr[0] \"fichier\"\nmsgstr[1] \"fichiers\"\n";

/// Whether a look-up has answered this, with status 0, and told nothing.
fn is_answer(reported: Result<Ended, JoinError>, wanted: &[u8]) -> bool {
    match reported {
        Ok(ended) => is_end(ended, (Some(0), None, wanted, b"")),
        Err(_) => false,
    }
}

#[test]
fn messages_are_looked_up(rt: HostRuntime) {
    let known = gettext_in_memory(rt.alloc(), ONE_MESSAGE, "a");
    assert!(rt; is_answer(known, b"b"));
    let unknown = gettext_in_memory(rt.alloc(), ONE_MESSAGE, "c");
    assert!(rt; is_answer(unknown, b"c"));
    let none = ngettext_in_memory(rt.alloc(), FILES, "file", "files", "0");
    assert!(rt; is_answer(none, b"fichier"));
    let many = ngettext_in_memory(rt.alloc(), FILES, "file", "files", "many");
    assert!(rt; is_answer(many, b"fichiers"));
}

#[test]
fn variables_are_replaced(rt: HostRuntime) {
    let all = envsubst_in_memory(rt.alloc(), None, b"$A${B}$C", &[b"A=v", b"B=w"]);
    assert!(rt; is_end(all, (Some(0), None, b"vw", b"")));
    let one = envsubst_in_memory(rt.alloc(), Some("$B"), b"$A$B", &[b"A=v", b"B=w"]);
    assert!(rt; is_end(one, (Some(0), None, b"$Aw", b"")));
}
