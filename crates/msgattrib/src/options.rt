//! What the options of a command line mean for msgattrib.
ghost use Rattle.msgattrib.specs.Prelude.{IsSelection};

use crate::selection::Selection;
use runs::Arguments;

/// What `msgattrib` is asked for.
pub fn selection_of<A: Arguments>(arguments: &A) -> Selection
    ensures { IsSelection (A.flag arguments.now) result }
{
    let fuzzy = arguments.is_given("fuzzy");
    let obsolete = arguments.is_given("obsolete");
    Selection {
        translated: arguments.is_given("translated"),
        untranslated: arguments.is_given("untranslated"),
        no_fuzzy: arguments.is_given("no-fuzzy"),
        only_fuzzy: arguments.is_given("only-fuzzy") | fuzzy,
        no_obsolete: arguments.is_given("no-obsolete"),
        only_obsolete: arguments.is_given("only-obsolete") | obsolete,
        set_fuzzy: arguments.is_given("set-fuzzy"),
        clear_fuzzy: arguments.is_given("clear-fuzzy") | fuzzy,
        set_obsolete: arguments.is_given("set-obsolete"),
        clear_obsolete: arguments.is_given("clear-obsolete") | obsolete,
        clear_previous: arguments.is_given("clear-previous"),
        empty: arguments.is_given("empty"),
    }
}
