//! A chain of catalogues, of which the first that has a message answers for it.

ghost use Rattle.std.specs.Prelude.{◌≡◌, ◌+◌, ◌^◌, ◌<◌, ◌≤◌, length, take};
ghost use Rattle.mo_lookup.specs.Prelude.{query, answering_nodes, asked, chain_bound, chain_answer_view, chain_answered, chain_comparisons};

use crate::catalog::Catalog;
use crate::query::{can_be_key, untranslated_text};
use mo_file::Meter;
use std::marker::Model;

/// What a look-up in a chain answers: a slice of a catalogue's bytes or of the query, and what it
/// cost.
#[derive(Clone, Copy, Debug, PartialEq, Eq)]
pub struct ChainAnswer<'q> {
    /// The translation's form, or where no catalogue has one the msgid or the plural that was asked
    /// for.
    pub text: &'q [u8],
    /// Whether a catalogue of the chain has a translation.
    pub found: bool,
    /// How many keys were compared with the query's, in all catalogues that were asked.
    pub comparisons: u64,
    /// How many nodes of the answering catalogue's plural expression were evaluated.
    pub steps: u32,
    /// How many catalogues were asked. Where there is a translation, the last of them has it.
    pub asked: u32,
}

/// Catalogues in the order in which they are asked, as for the languages of a user's choice.
#[derive(Drop)]
pub struct Chain<'c, 'a> {
    members: &'c [Catalog<'a>],
}

impl<'c, 'a> Model for Chain<'c, 'a> {
    ghost use Rattle.std.specs.Prelude.{◌^◌, ◌<◌, List, length};
    ghost use Rattle.std.specs.Coded.{codes};
    ghost use Rattle.plural_rule.specs.contracts.rule.Rule.{the_row as rule_row};
    ghost use Rattle.mo_lookup.specs.Prelude.{CatalogView};

    ghost Value = { List CatalogView };

    ghost coded = { Prim.hlevel (codes, rule_row.coded) };

    ghost view = { λ c. c.members.now };

    ghost invariant = { λ c. length c.members.now < 2 ^ 32 };
}

impl<'c, 'a> Chain<'c, 'a> {
    /// The chain of these catalogues, in this order: at most 4,294,967,295.
    pub fn new(members: &'c [Catalog<'a>]) -> Chain<'c, 'a>
        requires { length members.now < 2 ^ 32 }
        ensures { result ≡ members.now }
    {
        Chain { members }
    }

    /// Looks up a message as `Catalog::look` does, in one catalogue after the other up to the first
    /// that has it, whose plural rule then selects the form. For a context or a msgid that contains
    /// a byte 0 or 4 no catalogue is asked. The meter counts the comparisons; before the call its
    /// count is below 2^62.
    pub fn look<'q>(
        &self,
        context: Option<&[u8]>,
        id: &'q [u8],
        plural: Option<(&'q [u8], u64)>,
        meter: &mut Meter,
    ) -> ChainAnswer<'q>
    where
        'a: 'q,
        requires { meter.old < 2 ^ 62 }
        ensures answered { chain_answer_view result
            ≡ chain_answered self.now (query context.entry id.now plural.entry) }
        ensures asked { result.asked ≡ asked self.now (query context.entry id.now plural.entry) }
        ensures counted { meter.new ≡ meter.old + result.comparisons }
        ensures comparisons { result.comparisons
            ≡ chain_comparisons (take result.asked self.now) (query context.entry id.now plural.entry) }
        ensures bound { result.comparisons ≤ chain_bound (take result.asked self.now) }
        ensures nodes { result.steps ≤ answering_nodes self.now (query context.entry id.now plural.entry) }
    {
        let none = ChainAnswer {
            text: untranslated_text(id, plural),
            found: false,
            comparisons: 0,
            steps: 0,
            asked: 0,
        };
        if !can_be_key(context, id) {
            return none;
        }
        let before = meter.count();
        for (index, catalog) in self.members.iter().enumerate() {
            let answer = catalog.look(context, id, plural, meter);
            if answer.found {
                return ChainAnswer {
                    text: answer.text,
                    found: true,
                    comparisons: meter.count() - before,
                    steps: answer.steps,
                    asked: index as u32 + 1,
                };
            }
        }
        ChainAnswer {
            comparisons: meter.count() - before,
            asked: self.members.len() as u32,
            ..none
        }
    }
}
