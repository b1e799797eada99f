//! The forms of a translation ("Plural forms"): the parts between its NULs.

ghost use Rattle.std.specs.Prelude.{◌≡◌, ◌+◌, ◌^◌, ◌<◌, ◌≤◌, ℕ, List, None, Some, drop, length, slice_get, MatchOption};
ghost use Rattle.plural_rule.specs.declared.rule.Source.{Source};
ghost use Rattle.mo_lookup.specs.Prelude.{IsFormAt, expression_limit, form_at, forms, given, nodes, program_of, translated, tree_of};

use mo_file::{NUL, find_byte};
use plural_rule::{Instruction, Steps, evaluate};
use std::ops::Range;

/// Where the first of the forms from byte `start` of a translation on stands in the translation.
pub(crate) fn first_form(translation: &[u8], start: usize) -> Range<usize>
    requires { start ≤ length translation.now }
    ensures { IsFormAt translation.now result.start result.end (form_at (forms (drop start translation.now)) 0) }
{
    match find_byte(NUL, &translation[start..]) {
        Some(len) => start..start + len,
        None => start..translation.len(),
    }
}

/// Where the form of a translation with this index, counted from 0, stands in the translation, or
/// None where it has fewer forms.
fn form(translation: &[u8], index: u64) -> Option<Range<usize>>
    ensures { MatchOption result (slice_get (forms translation.now) index ≡ None)
        (λ range. (text : List ℕ) × (slice_get (forms translation.now) index ≡ Some text)
        × IsFormAt translation.now range.start range.end text) }
{
    let mut start = 0;
    for _ in 0..index {
        start += find_byte(NUL, &translation[start..])? + 1;
    }
    Some(first_form(translation, start))
}

/// Where the form that is the answer stands in a translation: form 0 where no plural is given, else
/// the one that a rule with `nplurals` forms selects for the count. The counter counts the nodes of
/// its expression that are evaluated for it. The rule selects form 0 where its value is undefined,
/// isn't below `nplurals`, or has no form in this translation.
pub(crate) fn answered_form(
    nplurals: u64,
    program: &[Instruction],
    translation: &[u8],
    plural: Option<(&[u8], u64)>,
    steps: &mut Steps,
) -> Range<usize>
    requires program { program.now ≡ program_of 0 (tree_of program.now) }
    requires limit { length program.now ≤ expression_limit }
    requires room { steps.old < 2 ^ 63 }
    ensures text { (source : Source) → IsFormAt translation.now result.start result.end
        (translated (forms translation.now)
        (record { source = source; nplurals = nplurals; tree = tree_of program.now })
        (given plural.entry)).text }
    ensures inside { (result.start ≤ result.end) × (result.end ≤ length translation.now) }
    ensures steps { (source : Source) → steps.new
        ≡ steps.old + (translated (forms translation.now)
        (record { source = source; nplurals = nplurals; tree = tree_of program.now })
        (given plural.entry)).steps }
    ensures never_falls { steps.old ≤ steps.new }
    ensures nodes { steps.new ≤ steps.old + nodes (tree_of program.now) }
    ensures few { steps.new ≤ steps.old + expression_limit }
{
    let Some((_, count)) = plural else {
        return first_form(translation, 0);
    };
    let selected = match evaluate(program, count, steps) {
        Some(index) if index < nplurals => form(translation, index),
        _ => None,
    };
    match selected {
        Some(range) => range,
        None => first_form(translation, 0),
    }
}
