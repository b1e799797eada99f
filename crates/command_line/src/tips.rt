//! The tip on what GNU gettext alone has, if clap's text of a usage fault names it.
ghost use Rattle.std.specs.Prelude.{◌≡◌, ◌==◌, IfOk, option_map, string_bytes};
ghost use Rattle.std.specs.List.{slice_split};
ghost use Rattle.std.specs.Option.{option_copied};
ghost use Rattle.command_line.specs.Prelude.{gnu_options, is_among, manual_of, own_tip, takes_files, tip_on, word_after};

use runs::Tool;
use std::alloc::{AllocError, Global};

/// How clap's text of an unknown option begins.
const UNKNOWN_OPTION: &str = "error: unexpected argument '";

/// How clap's text of an unknown tool begins.
const UNKNOWN_TOOL: &str = "error: unrecognized subcommand '";

/// The options by which GNU's tools show their version, words with a space between two.
const VERSION_OPTIONS: &str = "-V --version";

/// The tip where one of these was given.
const VERSION_TIP: &str = "  tip: the first line of 'pokit --help' has the version\n\n";

/// Options of GNU's msgfmt that check a text.
const CHECKS: &str =
    "-c -C --check --check-accelerators --check-compatibility --check-domain --check-format \
     --check-header";

/// The tip where one of `CHECKS` was given to msgfmt.
const CHECK_TIP: &str =
    "  tip: '--profile-check' checks headers, plural forms and newlines; the msgfmt that
       'make install' puts into libexec/pokit takes GNU's checks

";

/// The tools of GNU gettext that pokit doesn't have.
const GNU_TOOLS: &str =
    "autopoint gettextize msgcmp msgcomm msgconv msgen msgexec msgfilter msggrep msginit msgmerge \
     msguniq recode-sr-latin xgettext";

/// Options of GNU's msgfmt that pokit's doesn't have, `CHECKS` aside.
const MSGFMT_OPTIONS: &str =
    "-D -L -P -a -d -j -k -l -r -v --alignment --csharp --csharp-resources --desktop --directory \
     --java --java2 --keyword --language --locale --no-convert --no-redundancy --properties-input \
     --qt --resource --source --strict --stringtable-input --tcl --template --verbose --xml";

/// Those of GNU's msgunfmt.
const MSGUNFMT_OPTIONS: &str =
    "-E -d -e -i -j -l -p -r -s -v -w --color --csharp --csharp-resources --escape --force-po \
     --indent --java --locale --no-escape --properties-output --resource --sort-output --strict \
     --stringtable-output --style --tcl --verbose --width";

/// Those of GNU's msgattrib.
const MSGATTRIB_OPTIONS: &str =
    "-D -E -F -P -e -i -n -p -s -w --add-location --color --directory --escape --force-po \
     --ignore-file --indent --no-escape --no-location --only-file --previous --properties-input \
     --properties-output --sort-by-file --sort-output --strict --stringtable-input \
     --stringtable-output --style --width";

/// Those of GNU's msgcat.
const MSGCAT_OPTIONS: &str =
    "-< -> -D -E -F -P -e -f -i -n -p -s -t -w --add-location --color --directory --escape \
     --files-from --force-po --indent --lang --no-escape --no-location --properties-input \
     --properties-output --sort-by-file --sort-output --strict --stringtable-input \
     --stringtable-output --style --to-code --width";

/// The tip on the option or the tool that clap's text names, if GNU's alone has it.
pub(crate) fn own_tip(
    alloc: Global,
    tool: Option<Tool>,
    text: &str,
) -> Result<Option<String>, AllocError>
    ensures { IfOk result (λ tip. option_map string_bytes tip ≡ own_tip tool text.now) }
{
    if let Some(option) = word_after(text, UNKNOWN_OPTION) {
        if has_word(VERSION_OPTIONS, option) {
            return Ok(Some(String::from_str(alloc, VERSION_TIP)?));
        }
        if matches!(tool, Some(Tool::Msgfmt)) && has_word(CHECKS, option) {
            return Ok(Some(String::from_str(alloc, CHECK_TIP)?));
        }
        if is_gnus(tool, option) {
            return Ok(Some(tip_on(alloc, option, "an option", manual_of(tool))?));
        }
    }
    match word_after(text, UNKNOWN_TOOL) {
        Some(name) if has_word(GNU_TOOLS, name) => {
            Ok(Some(tip_on(alloc, name, "a tool", manual_of(None))?))
        }
        _ => Ok(None),
    }
}

/// The tip on what GNU's alone has.
fn tip_on(alloc: Global, word: &str, kind: &str, manual: &str) -> Result<String, AllocError>
    ensures { IfOk result (λ tip. string_bytes tip ≡ tip_on word.now kind.now manual.now) }
{
    format!(in alloc;
        "  tip: '{word}' is {kind} of GNU gettext alone; see DIFFERENCES in the manual {manual}(1)\n\n"
    )
}

/// The manual of a tool, or of the program.
fn manual_of(tool: Option<Tool>) -> &'static str
    ensures { result.now ≡ manual_of tool }
{
    match tool {
        Some(Tool::Msgfmt) => "pokit-msgfmt",
        Some(Tool::Msgunfmt) => "pokit-msgunfmt",
        Some(Tool::Msgattrib) => "pokit-msgattrib",
        Some(Tool::Msgcat) => "pokit-msgcat",
        Some(Tool::Gettext) => "pokit-gettext",
        Some(Tool::Ngettext) => "pokit-ngettext",
        Some(Tool::Envsubst) => "pokit-envsubst",
        None => "pokit",
    }
}

/// The word between a beginning of a text and the next quote, or all after it if there is none.
fn word_after<'t>(text: &'t str, beginning: &str) -> Option<&'t str>
    ensures { option_copied result ≡ word_after beginning.now text.now }
{
    let rest = text.strip_prefix(beginning)?;
    match rest.split_once('\'') {
        Some((word, _)) => Some(word),
        None => Some(rest),
    }
}

/// Whether GNU's tool has the option, and pokit's doesn't.
fn is_gnus(tool: Option<Tool>, option: &str) -> bool
    ensures { result ≡ is_among (gnu_options tool) option.now }
{
    let Some(tool) = tool else {
        return false;
    };
    match tool {
        Tool::Msgfmt => has_word(MSGFMT_OPTIONS, option),
        Tool::Msgunfmt => has_word(MSGUNFMT_OPTIONS, option),
        Tool::Msgattrib => has_word(MSGATTRIB_OPTIONS, option),
        Tool::Msgcat => has_word(MSGCAT_OPTIONS, option),
        _ => false,
    }
}

/// Whether a list of words has this one.
fn has_word(words: &str, word: &str) -> bool
    ensures { result ≡ is_among (slice_split (λ b. b == 32) words.now) word.now }
{
    words.split(' ').any(|other| other == word)
}

/// Whether the tool's arguments are files.
pub(crate) fn takes_files(tool: Option<Tool>) -> bool
    ensures { result ≡ takes_files tool }
{
    matches!(
        tool,
        Some(Tool::Msgfmt | Tool::Msgunfmt | Tool::Msgattrib | Tool::Msgcat)
    )
}
