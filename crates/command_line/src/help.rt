//! What the help of the program and of each tool says besides options: what it is for and an
//! example at the top; the usage of tools that take arguments in several forms; and after the
//! options these forms, more examples, and what the exit status is. No line is wider than 80
//! columns.

/// What the help of a command says.
#[derive(Clone, Copy)]
pub(crate) struct Help {
    pub(crate) about: &'static str,
    // Below that, in the command's own help.
    pub(crate) example: &'static str,
    // Where it isn't clap's own.
    pub(crate) usage: Option<&'static str>,
    pub(crate) after: &'static str,
}

/// The version is that of `POKIT_VERSION` in include/pokit.h, with which tests/options compares it.
pub(crate) const PROGRAM: Help = Help {
    about: "pokit 0.2 compiles message catalogues and looks messages up in them",
    example: "  pokit msgfmt -o de.mo de.po",
    usage: None,
    after: "'pokit TOOL --help' and 'pokit help TOOL' show the options of a tool.

Examples:
  LANG=de_DE.UTF-8 TEXTDOMAINDIR=locale pokit gettext -s -d bookshelf Bookshelf

Exit status: 0, or 1 after any fault but a damaged catalogue, which gettext and
ngettext skip.

More: 'man pokit'; what to do about a fault: 'man pokit-faults'.",
};

pub(crate) const MSGFMT: Help = Help {
    about: "Compiles PO texts to one MO file",
    example: "  pokit msgfmt -o de.mo de.po",
    usage: None,
    after: "Examples:
  pokit msgfmt --statistics --profile-check de.po
  pokit msgfmt -o - a.po b.po > all.mo

Exit status: 0, or 1 after any fault. The output file is complete, or
unchanged. In a folder in which no file may be made it is written in place: a
write fault cuts it off.

More: 'man pokit-msgfmt'; what to do about a fault: 'man pokit-faults'.",
};

pub(crate) const MSGUNFMT: Help = Help {
    about: "Writes the PO text of an MO file",
    example: "  pokit msgunfmt -o de.po de.mo",
    usage: None,
    after: "Examples:
  pokit msgunfmt < de.mo

Exit status: 0, or 1 after any fault. The output file is complete, or
unchanged. In a folder in which no file may be made it is written in place: a
write fault cuts it off.

More: 'man pokit-msgunfmt'; what to do about a fault: 'man pokit-faults'.",
};

pub(crate) const MSGATTRIB: Help = Help {
    about: "Selects entries of a PO text and changes them",
    example: "  pokit msgattrib --untranslated de.po",
    usage: None,
    after: "Examples:
  pokit msgattrib --no-obsolete --clear-previous -o clean.po de.po

Exit status: 0, or 1 after any fault. The output file is complete, or
unchanged. In a folder in which no file may be made it is written in place: a
write fault cuts it off.

More: 'man pokit-msgattrib'; what to do about a fault: 'man pokit-faults'.",
};

pub(crate) const MSGCAT: Help = Help {
    about: "Merges PO texts, message by message",
    example: "  pokit msgcat -o all.po a.po b.po",
    usage: None,
    after: "Examples:
  pokit msgcat --use-first -o all.po new.po old.po
  pokit msgcat --more-than 1 a.po b.po

Exit status: 0, or 1 after any fault. The output file is complete, or
unchanged. In a folder in which no file may be made it is written in place: a
write fault cuts it off.

More: 'man pokit-msgcat'; what to do about a fault: 'man pokit-faults'.",
};

pub(crate) const GETTEXT: Help = Help {
    about: "Prints the translation of a message",
    example: "  export LANG=de_DE.UTF-8 TEXTDOMAINDIR=locale TEXTDOMAIN=bookshelf
  pokit gettext -s Bookshelf",
    usage: Some(
        "pokit gettext [OPTIONS] [TEXTDOMAIN] MSGID\n       pokit gettext [OPTIONS] -s [MSGID]...",
    ),
    after: "Arguments:
  [TEXTDOMAIN]  The text domain, in place of that of -d
  MSGID         The message to look up; with -s any number of them
                (-- stands before one that begins with -)

Examples:
  pokit gettext -s -c button Open

Exit status: 0, also where there is no translation and where a damaged catalogue
is skipped; 1 after any other fault.

More: 'man pokit-gettext'; what to do about a fault: 'man pokit-faults'.",
};

pub(crate) const NGETTEXT: Help = Help {
    about: "Prints the translation of a message with a count",
    example: "  export LANG=de_DE.UTF-8 TEXTDOMAINDIR=locale TEXTDOMAIN=bookshelf
  pokit ngettext '%d book' '%d books' 3",
    usage: Some("pokit ngettext [OPTIONS] [TEXTDOMAIN] MSGID MSGID-PLURAL COUNT"),
    after: "Arguments:
  [TEXTDOMAIN]  The text domain, in place of that of -d
  MSGID         The message to look up
  MSGID-PLURAL  Its plural
  COUNT         The count, which selects the plural form
                (-- stands before one that begins with -)

Examples:
  pokit ngettext -- '%d book' '%d books' -1

Exit status: 0, also where there is no translation and where a damaged catalogue
is skipped; 1 after any other fault.

More: 'man pokit-ngettext'; what to do about a fault: 'man pokit-faults'.",
};

pub(crate) const ENVSUBST: Help = Help {
    about: "Puts the values of variables into standard input",
    example: "  echo 'Dear $USER' | pokit envsubst",
    usage: Some("pokit envsubst [OPTIONS] [SHELL-FORMAT]"),
    after: "Arguments:
  [SHELL-FORMAT]  The variables to replace; without it, all are replaced

Examples:
  pokit envsubst '$USER $HOME' < template > text
  pokit envsubst --variables 'Dear $USER'

Exit status: 0, or 1 after any fault.

More: 'man pokit-envsubst'; what to do about a fault: 'man pokit-faults'.",
};
