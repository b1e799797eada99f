//! The arguments that each tool takes, as `clap` commands.
ghost use Rattle.std.specs.Prelude.{◌≡◌, IfOk, false, map};
ghost use Rattle.clap.specs.Built.{subcommand_names};
ghost use Rattle.clap.specs.Simple.{app_of, new_app};
ghost use Rattle.clap.specs.Walk.{rule_of};
ghost use Rattle.clap.specs.declared.builder.command.Command.TheViews.{out-Command};
ghost use Rattle.command_line.specs.Prelude.{IsRuleOf, arguments_of, IsToolCommand, OffersTools, offered, offered_tools};
ghost use Rattle.command_line.specs.Internal.{argument_of};

use crate::help::{self, Help};
use Kind::{ByteOrder, File, Files, Flag, Forms, Letter, Number, Output, ShortFlag, Text};
use clap::{Arg, ArgAction, Command, value_parser};
use runs::{TOOLS, Tool};
use std::alloc::{AllocError, Global};
use std::slice;

static BYTE_ORDERS: [&str; 2] = ["little", "big"];

/// An argument or an option: the name by which it is read, what it is, and its help.
type Argument = (&'static str, Kind, &'static str);

/// What an argument or an option is.
#[derive(Clone, Copy)]
enum Kind {
    /// One file.
    File,
    /// One or more files.
    Files,
    /// Arguments in several forms, which the end of the help lists.
    Forms,
    /// An option `--name`.
    Flag,
    /// An option `--name`, or its letter.
    ShortFlag(char),
    /// An option of a letter alone.
    Letter(char),
    /// The option that names the output.
    Output,
    /// An option `--name TEXT`, or its letter, with what the help has for the text.
    Text(char, &'static str),
    /// An option `--name N`.
    Number,
    /// An option `--name ORDER`, of a byte order.
    ByteOrder,
}

const OUTPUT: Argument = (
    "output-file",
    Output,
    "PO text to write; - or none is standard output",
);

const NO_WRAP: Argument = (
    "no-wrap",
    Flag,
    "Accepted for compatibility: no line is ever wrapped",
);

const DOMAIN: Argument = ("domain", Text('d', "TEXTDOMAIN"), "The text domain");

const CONTEXT: Argument = (
    "context",
    Text('c', "CONTEXT"),
    "The context of the message",
);

const EXPAND: Argument = (
    "expand",
    Letter('e'),
    "Expand escapes such as \\n in the message",
);

const NO_EXPAND: Argument = (
    "no-expand",
    Letter('E'),
    "Accepted for compatibility, without effect",
);

static MSGFMT: [Argument; 7] = [
    (
        "FILE",
        Files,
        "PO texts to join, in their order; - is standard input",
    ),
    (
        "output-file",
        Output,
        "MO file; - is standard output [default: messages.mo]",
    ),
    ("use-fuzzy", ShortFlag('f'), "Compile fuzzy entries too"),
    ("statistics", Flag, "Count the messages on standard error"),
    (
        "endianness",
        ByteOrder,
        "Byte order, little or big [default: little]",
    ),
    (
        "no-hash",
        Flag,
        "Accepted for compatibility: no hash table is made",
    ),
    (
        "profile-check",
        Flag,
        "Refuse plural forms and newlines that don't fit",
    ),
];

static MSGUNFMT: [Argument; 3] = [
    ("FILE", File, "MO file to read; - or none is standard input"),
    OUTPUT,
    NO_WRAP,
];

static MSGATTRIB: [Argument; 17] = [
    ("FILE", File, "PO text to read; - or none is standard input"),
    OUTPUT,
    NO_WRAP,
    ("translated", Flag, "Keep translated messages"),
    ("untranslated", Flag, "Keep untranslated messages"),
    ("no-fuzzy", Flag, "Keep messages that aren't fuzzy"),
    ("only-fuzzy", Flag, "Keep fuzzy messages"),
    ("no-obsolete", Flag, "Keep messages that aren't obsolete"),
    ("only-obsolete", Flag, "Keep obsolete messages"),
    ("set-fuzzy", Flag, "Make all messages fuzzy"),
    ("clear-fuzzy", Flag, "Make all messages not fuzzy"),
    ("set-obsolete", Flag, "Make all messages obsolete"),
    ("clear-obsolete", Flag, "Make all messages not obsolete"),
    ("clear-previous", Flag, "Drop the previous texts"),
    (
        "empty",
        Flag,
        "With --clear-fuzzy, empty the fuzzy translations",
    ),
    ("fuzzy", Flag, "Stand for --only-fuzzy --clear-fuzzy"),
    (
        "obsolete",
        Flag,
        "Stand for --only-obsolete --clear-obsolete",
    ),
];

static MSGCAT: [Argument; 7] = [
    ("FILE", Files, "PO texts to merge; - is standard input"),
    OUTPUT,
    NO_WRAP,
    (
        "more-than",
        Number,
        "Keep messages with more definitions than N",
    ),
    (
        "less-than",
        Number,
        "Keep messages with fewer definitions than N",
    ),
    (
        "unique",
        ShortFlag('u'),
        "Keep messages with one definition",
    ),
    ("use-first", Flag, "Take the first translation"),
];

static GETTEXT: [Argument; 7] = [
    DOMAIN,
    CONTEXT,
    EXPAND,
    NO_EXPAND,
    ("MSGID", Forms, ""),
    ("no-newline", Letter('n'), "With -s, end without a newline"),
    (
        "shell",
        Letter('s'),
        "Translate all MSGIDs, and end with a newline",
    ),
];

static NGETTEXT: [Argument; 5] = [DOMAIN, CONTEXT, EXPAND, NO_EXPAND, ("MSGID", Forms, "")];

static ENVSUBST: [Argument; 2] = [
    ("SHELL-FORMAT", Forms, ""),
    (
        "variables",
        ShortFlag('v'),
        "Print the names of variables in SHELL-FORMAT, read nothing",
    ),
];

/// The command of the whole program. Where the first argument names a tool, it has the command of
/// that tool alone.
pub fn program<'a>(alloc: Global, first: Option<Tool>) -> Result<Command<'a>, AllocError>
    ensures names { IfOk result (λ program. subcommand_names program ≡ offered first) }
    ensures takes { IfOk result (OffersTools (offered_tools first)) }
{
    let tools = match &first {
        Some(tool) => slice::from_ref(tool),
        None => TOOLS.as_slice(),
    };
    let mut program = described(alloc, "pokit", help::PROGRAM, true)
        .disable_version_flag(true)
        .disable_help_subcommand(true)
        .subcommand_required(true);
    for tool in tools {
        let command = command_of(alloc, *tool, first.is_some())?;
        program = program.subcommand(command)?;
    }
    Ok(program)
}

/// The command of a tool, with its options and arguments.
fn command_of<'a>(alloc: Global, tool: Tool, is_alone: bool) -> Result<Command<'a>, AllocError>
    ensures { IfOk result (IsToolCommand tool) }
{
    let (help, arguments) = parts_of(tool);
    let name: &'a str = tool.name();
    let mut command = described(alloc, name, help, is_alone);
    for argument in arguments {
        command = command.arg(arg_of(alloc, *argument))?;
    }
    Ok(command)
}

/// What the help of a tool says, and its arguments and options.
fn parts_of(tool: Tool) -> (Help, &'static [Argument])
    ensures { map (λ a. argument_of a.0.now a.1) result.1.now ≡ arguments_of tool }
{
    match tool {
        Tool::Msgfmt => (help::MSGFMT, MSGFMT.as_slice()),
        Tool::Msgunfmt => (help::MSGUNFMT, MSGUNFMT.as_slice()),
        Tool::Msgattrib => (help::MSGATTRIB, MSGATTRIB.as_slice()),
        Tool::Msgcat => (help::MSGCAT, MSGCAT.as_slice()),
        Tool::Gettext => (help::GETTEXT, GETTEXT.as_slice()),
        Tool::Ngettext => (help::NGETTEXT, NGETTEXT.as_slice()),
        Tool::Envsubst => (help::ENVSUBST, ENVSUBST.as_slice()),
    }
}

/// A command with what its help says besides its arguments. Beside others it is only listed, by
/// what it is for.
fn described<'a>(alloc: Global, name: &'a str, help: Help, is_alone: bool) -> Command<'a>
    ensures app { app_of result ≡ new_app name.entry.now }
    ensures local { (out-Command result).has_globals ≡ false }
{
    let command = Command::new(alloc, name)
        .before_help(help.about)
        .about(if is_alone { help.example } else { help.about })
        .subcommand_value_name("TOOL")
        .subcommand_help_heading("Tools")
        .after_help(help.after);
    match help.usage {
        Some(usage) => command.override_usage(usage),
        None => command,
    }
}

/// An argument or an option, as `clap` has it.
fn arg_of<'a>(alloc: Global, argument: Argument) -> Arg<'a>
    ensures rule { IsRuleOf (argument_of argument.entry.0.now argument.entry.1) (rule_of result) }
    ensures local { result.global ≡ false }
{
    let (name, kind, help) = argument;
    let arg = Arg::new(alloc, name).help(help);
    match kind {
        File => arg,
        Files => arg.action(ArgAction::Append).num_args(1..).required(true),
        Forms => arg.action(ArgAction::Append).num_args(0..).hide(true),
        Flag => arg.long(name).action(ArgAction::SetTrue),
        ShortFlag(letter) => arg.long(name).short(letter).action(ArgAction::SetTrue),
        Letter(letter) => arg.short(letter).action(ArgAction::SetTrue),
        Output => arg.long(name).short('o').value_name("FILE"),
        Text(letter, text) => arg.long(name).short(letter).value_name(text),
        Number => arg
            .long(name)
            .value_name("N")
            .value_parser(value_parser!(u32)),
        ByteOrder => arg
            .long(name)
            .value_name("ORDER")
            .hide_possible_values(true)
            .value_parser(BYTE_ORDERS.as_slice()),
    }
}
