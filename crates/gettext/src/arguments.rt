//! What a command line of gettext or ngettext asks for, by its arguments and options.
ghost use Rattle.std.specs.Prelude.{◌≡◌, map, option_map};
ghost use Rattle.gettext.specs.Prelude.{IsTakenAs, AsksGettext, AsksNgettext, gettext_usage, ngettext_usage, messages_given, plural_form_given};

use crate::plan::{GettextOptions, LookUp, NgettextOptions};
use runs::{Arguments, ProgramFault};

/// What a command line asks for.
#[derive(Clone, Copy)]
pub struct LookUpCommand<'a> {
    /// TEXTDOMAIN, where it is given.
    pub argument: Option<&'a str>,
    /// `-d`: the text domain, where TEXTDOMAIN isn't given.
    pub option: Option<&'a str>,
    /// What is looked up there.
    pub look_up: LookUp<'a>,
}

impl<'a> LookUpCommand<'a> {
    /// Takes a command line of `gettext`, where its arguments fit a usage of the tool.
    pub fn of_gettext<A: Arguments>(line: &'a A) -> Result<LookUpCommand<'a>, ProgramFault<'a>>
        ensures { IsTakenAs (AsksGettext (A.flag line.now) (A.text line.now) (A.texts line.now)) result }
    {
        let shell = line.is_given("shell");
        let Some((argument, messages)) = messages_of(shell, line.texts_of("MSGID")) else {
            return Err(ProgramFault::WrongArguments);
        };
        let options = GettextOptions {
            messages,
            context: line.text_of("context"),
            expand: line.is_given("expand"),
            no_newline: line.is_given("no-newline"),
            shell,
        };
        Ok(LookUpCommand {
            argument,
            option: line.text_of("domain"),
            look_up: LookUp::Messages(options),
        })
    }

    /// Takes a command line of `ngettext`, where its arguments fit a usage of the tool.
    pub fn of_ngettext<A: Arguments>(line: &'a A) -> Result<LookUpCommand<'a>, ProgramFault<'a>>
        ensures { IsTakenAs (AsksNgettext (A.flag line.now) (A.text line.now) (A.texts line.now)) result }
    {
        let Some((argument, id, plural, count)) = plural_form_of(line.texts_of("MSGID")) else {
            return Err(ProgramFault::WrongArguments);
        };
        let options = NgettextOptions {
            context: line.text_of("context"),
            expand: line.is_given("expand"),
            id,
            plural,
            count,
        };
        Ok(LookUpCommand {
            argument,
            option: line.text_of("domain"),
            look_up: LookUp::PluralForm(options),
        })
    }
}

/// TEXTDOMAIN and the MSGIDs of `[TEXTDOMAIN] MSGID`, or with `shell` of `MSGID..`. Other arguments
/// fit no usage of `gettext`.
fn messages_of<'w, 'a>(
    shell: bool,
    arguments: &'w [&'a str],
) -> Option<(Option<&'a str>, &'w [&'a str])>
    ensures { option_map messages_given result
        ≡ gettext_usage shell (map (λ argument. argument.now) arguments.now) }
{
    match arguments {
        _ if shell => Some((None, arguments)),
        [_] => Some((None, arguments)),
        [domain, _] => Some((Some(*domain), &arguments[1..])),
        _ => None,
    }
}

/// TEXTDOMAIN, MSGID, MSGID-PLURAL and COUNT of `[TEXTDOMAIN] MSGID MSGID-PLURAL COUNT`. Other
/// arguments fit no usage of `ngettext`.
fn plural_form_of<'a>(arguments: &[&'a str]) -> Option<(Option<&'a str>, &'a str, &'a str, &'a str)>
    ensures { option_map plural_form_given result ≡ ngettext_usage (map (λ argument. argument.now) arguments.now) }
{
    match arguments {
        [id, plural, count] => Some((None, *id, *plural, *count)),
        [domain, id, plural, count] => Some((Some(*domain), *id, *plural, *count)),
        _ => None,
    }
}
