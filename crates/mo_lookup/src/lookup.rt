//! Looking up a message, by the number of plural forms and the program of the plural rule.

ghost use Rattle.std.specs.Prelude.{◌≡◌, ◌+◌, ◌^◌, ◌<◌, ◌≤◌, None, length, slice_get, false, MatchOption};
ghost use Rattle.mo_lookup.specs.Prelude.{IsPlace, answered, can_be_key, comparisons, expression_limit, given, keys, located_view, nodes, program_of, query, query_comparisons, query_key, search_bound, translation_under, translations, tree_of};
ghost use Rattle.std.specs.Option.{option_copied};
ghost use Rattle.plural_rule.specs.declared.rule.Source.{Source};

use crate::forms::answered_form;
use crate::messages::Messages;
use crate::place::{Located, Place};
use crate::query::{can_be_key, untranslated_place};
use crate::search::find;
use plural_rule::{Instruction, Steps};

/// Looks up a message as [`Catalog::look`](crate::Catalog::look) does, and answers where the text
/// is, with a rule of `nplurals` forms whose expression stands in `program`, as `Rule::program`
/// gives it: at most 4,096 nodes. The counter counts the nodes that are evaluated.
pub fn locate<'a, M: Messages<'a>>(
    messages: &mut M,
    nplurals: u64,
    program: &[Instruction],
    context: Option<&[u8]>,
    id: &[u8],
    plural: Option<(&[u8], u64)>,
    steps: &mut Steps,
) -> Located
    requires keys { M.listed messages.old ≡ keys (M.file messages.old).messages }
    requires room { M.counted messages.old < 2 ^ 63 }
    requires room_of_steps { steps.old < 2 ^ 63 }
    requires program { program.now ≡ program_of 0 (tree_of program.now) }
    requires limit { length program.now ≤ expression_limit }
    ensures answered { (source : Source)
        → located_view (M.file messages.old).bytes (query context.entry id.now plural.entry) result
        ≡ answered (record {
          messages = (M.file messages.old).messages;
          rule = record { source = source; nplurals = nplurals; tree = tree_of program.now };
        })
        (query context.entry id.now plural.entry) }
    ensures place { IsPlace (M.file messages.old).bytes (given plural.entry) result.place }
    ensures counted { M.counted messages.new ≡ M.counted messages.old + result.comparisons }
    ensures counted_steps { steps.new ≡ steps.old + result.steps }
    ensures comparisons { result.comparisons
        ≡ query_comparisons (M.file messages.old).messages (query context.entry id.now plural.entry) }
    ensures bound { result.comparisons ≤ search_bound (length (M.file messages.old).messages) }
    ensures no_key { can_be_key (option_copied context.entry) id.now ≡ false → result.comparisons ≡ 0 }
    ensures at_most_32 { result.comparisons ≤ 32 }
    ensures nodes { result.steps ≤ nodes (tree_of program.now) }
    ensures same_counter { M.counter messages.new ≡ M.counter messages.old }
{
    let before = messages.count();
    let index = if can_be_key(context, id) {
        index_of(messages, context, id)
    } else {
        None
    };
    let comparisons = (messages.count() - before) as u32;
    let Some(index) = index else {
        return Located {
            place: untranslated_place(plural),
            comparisons,
            steps: 0,
        };
    };
    let translation = messages.translation(index);
    let range = messages.translation_range(index);
    let steps_before = steps.count();
    let form = answered_form(nplurals, program, translation, plural, steps);
    let start = range.start + form.start;
    let end = range.start + form.end;
    Located {
        place: Place::Translation { start, end },
        comparisons,
        steps: (steps.count() - steps_before) as u32,
    }
}

/// The index of the message with the key of a context and a msgid, or None where no message has
/// that key.
fn index_of<'a, M: Messages<'a>>(messages: &mut M, context: Option<&[u8]>, id: &[u8]) -> Option<u32>
    requires keys { M.listed messages.old ≡ keys (M.file messages.old).messages }
    requires room { M.counted messages.old < 2 ^ 63 }
    ensures found { let key = query_key (option_copied context.entry) id.now in
        MatchOption result (translation_under key (M.file messages.old).messages ≡ None)
        (λ index. (index < length (M.file messages.old).messages)
        × (translation_under key (M.file messages.old).messages
        ≡ slice_get (translations (M.file messages.old).messages) index)) }
    ensures same_file { M.file messages.new ≡ M.file messages.old }
    ensures comparisons { M.counted messages.new
        ≡ M.counted messages.old
        + comparisons (keys (M.file messages.old).messages) (query_key (option_copied context.entry) id.now) }
    ensures never_falls { M.counted messages.old ≤ M.counted messages.new }
    ensures bound { M.counted messages.new
        ≤ M.counted messages.old + search_bound (length (M.file messages.old).messages) }
    ensures at_most_32 { M.counted messages.new ≤ M.counted messages.old + 32 }
    ensures same_counter { M.counter messages.new ≡ M.counter messages.old }
{
    // Called for its clause that the keys rise.
    let _rising = messages.len();
    find(messages, context, id)
}
