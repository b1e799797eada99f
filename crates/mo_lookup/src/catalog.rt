//! A catalogue: an MO file of any origin, and the plural rule of its header.

ghost use Rattle.std.specs.Prelude.{◌≡◌, ◌+◌, ◌^◌, ◌<◌, ◌≤◌, List, [], length, MatchResult, IsOk, IfOk, OnOk, OnErr, false};
ghost use Rattle.std.specs.Option.{option_copied};
ghost use Rattle.mo_lookup.specs.Prelude.{IsCatalogView, IsFirstFault, IsMoFile, IsRuleOf, Message, answer_view, answered, can_be_key, comparisons_before, expression_limit, header_text, nodes, query, query_comparisons, search_bound};
ghost use Rattle.mo_file.specs.declared.byte_order.Order.{Order};

use crate::answer::Answer;
use crate::lookup::locate;
use crate::messages::ViewMessages;
use crate::opening::checked;
use crate::place::Place;
use crate::query::untranslated_text;
use mo_file::{Meter, MoError, MoView};
use plural_rule::{Rule, Steps};
use std::marker::Model;

/// A catalogue of translations in the bytes of an MO file, of whatever origin, in which messages
/// are looked up ("The Format of GNU MO Files" and "Plural forms").
#[derive(Drop)]
pub struct Catalog<'a> {
    view: MoView<'a>,
    rule: Rule,
}

impl<'a> Model for Catalog<'a> {
    ghost use Rattle.std.specs.Coded.{codes};
    ghost use Rattle.plural_rule.specs.contracts.rule.Rule.{the_row as rule_row};
    ghost use Rattle.mo_lookup.specs.Prelude.{CatalogView, IsCatalogView};

    ghost Value = { CatalogView };

    ghost coded = { Prim.hlevel (codes, rule_row.coded) };

    ghost view = { λ c. record { messages = c.view.messages; rule = c.rule } };

    ghost invariant = { λ c. IsCatalogView c.view.messages c.rule };
}

impl<'a> Catalog<'a> {
    /// Opens the bytes of an MO file in either byte order. They are checked whole, and refused with
    /// the first fault in the order of `MoError` exactly where they are no valid file. The meter
    /// rises by the number of messages. Where message `i` is refused as out of order it rises by
    /// `i`, and on any other refusal not at all. Before the call its count is below 2^63.
    #[inline(always)]
    pub fn open(bytes: &'a [u8], meter: &mut Meter) -> Result<Catalog<'a>, MoError>
        requires { meter.old < 2 ^ 63 }
        ensures exact { MatchResult result (λ catalog. (order : Order) × IsMoFile order bytes.now catalog.messages)
            (IsFirstFault bytes.now) }
        ensures only { (order : Order) (messages : List Message) → IsMoFile order bytes.now messages → IsOk result }
        ensures view { IfOk result (λ catalog. IsCatalogView catalog.messages catalog.rule) }
        ensures cost { MatchResult result (λ catalog. meter.new ≡ meter.old + length catalog.messages)
            (λ fault. meter.new ≡ meter.old + comparisons_before fault) }
    {
        let (view, header) = checked(bytes, meter)?;
        Ok(Catalog {
            rule: Rule::parse(header),
            view,
        })
    }

    /// The catalogue of a file without messages.
    #[inline(always)]
    pub fn empty() -> Catalog<'a>
        ensures messages { result.messages ≡ [] }
        ensures view { IsCatalogView result.messages result.rule }
    {
        Catalog {
            rule: Rule::of_no_header(),
            view: MoView::empty(),
        }
    }

    /// Opens bytes as [`Catalog::open`] does, in the place of this catalogue. Where they are
    /// refused, it stays as it was.
    #[inline(never)]
    pub fn reopen(&mut self, bytes: &'a [u8], meter: &mut Meter) -> Result<(), MoError>
        requires { meter.old < 2 ^ 63 }
        ensures exact { MatchResult result (λ _. (order : Order) × IsMoFile order bytes.now self.new.messages)
            (IsFirstFault bytes.now) }
        ensures only { (order : Order) (messages : List Message) → IsMoFile order bytes.now messages → IsOk result }
        ensures view { OnOk result (IsCatalogView self.new.messages self.new.rule) }
        ensures unchanged { OnErr result (self.new ≡ self.old) }
        ensures cost { MatchResult result (λ _. meter.new ≡ meter.old + length self.new.messages)
            (λ fault. meter.new ≡ meter.old + comparisons_before fault) }
    {
        let (view, header) = checked(bytes, meter)?;
        self.view = view;
        self.rule.reparse(header);
        Ok(())
    }

    /// How many messages the file has, its header entry among them.
    pub fn len(&self) -> u32
        ensures { result ≡ length self.now.messages }
    {
        self.view.len()
    }

    /// The plural rule of the file's header entry, or the default rule with the reason for it.
    pub fn rule(&self) -> &Rule
        ensures rule { result.now ≡ self.now.rule }
        ensures header { IsRuleOf expression_limit (header_text self.now.messages) self.now.rule }
    {
        &self.rule
    }

    /// Looks up the message of a context, or of none, and a msgid. Where a plural and a count are
    /// given, the count selects the plural form; the given plural isn't compared with the
    /// catalogue's.
    ///
    /// A message that isn't there is answered by the msgid, or for a count that isn't 1 by the
    /// plural. A context or a msgid that contains a byte 0 or 4 is answered in the same way,
    /// without a comparison. The meter counts the comparisons; before the call its count is below
    /// 2^63.
    pub fn look<'q>(
        &self,
        context: Option<&[u8]>,
        id: &'q [u8],
        plural: Option<(&'q [u8], u64)>,
        meter: &mut Meter,
    ) -> Answer<'q>
    where
        'a: 'q,
        requires { meter.old < 2 ^ 63 }
        ensures answered { answer_view result ≡ answered self.now (query context.entry id.now plural.entry) }
        ensures counted { meter.new ≡ meter.old + result.comparisons }
        ensures comparisons { result.comparisons
            ≡ query_comparisons self.now.messages (query context.entry id.now plural.entry) }
        ensures bound { result.comparisons ≤ search_bound (length self.now.messages) }
        ensures no_key { can_be_key (option_copied context.entry) id.now ≡ false → result.comparisons ≡ 0 }
        ensures at_most_32 { result.comparisons ≤ 32 }
        ensures nodes { result.steps ≤ nodes self.now.rule.tree }
    {
        self.look_counted(context, id, plural, meter, &mut Steps::new())
    }

    /// What [`Catalog::look`] says. The steps are counted as the comparisons are.
    #[inline(always)]
    fn look_counted<'q>(
        &self,
        context: Option<&[u8]>,
        id: &'q [u8],
        plural: Option<(&'q [u8], u64)>,
        meter: &mut Meter,
        steps: &mut Steps,
    ) -> Answer<'q>
    where
        'a: 'q,
        requires room { meter.old < 2 ^ 63 }
        requires room_of_steps { steps.old < 2 ^ 63 }
        ensures answered { answer_view result ≡ answered self.now (query context.entry id.now plural.entry) }
        ensures counted { meter.new ≡ meter.old + result.comparisons }
        ensures counted_steps { steps.new ≡ steps.old + result.steps }
        ensures comparisons { result.comparisons
            ≡ query_comparisons self.now.messages (query context.entry id.now plural.entry) }
        ensures bound { result.comparisons ≤ search_bound (length self.now.messages) }
        ensures no_key { can_be_key (option_copied context.entry) id.now ≡ false → result.comparisons ≡ 0 }
        ensures at_most_32 { result.comparisons ≤ 32 }
        ensures nodes { result.steps ≤ nodes self.now.rule.tree }
    {
        let view = &self.view;
        let located = locate(
            &mut ViewMessages { view, meter },
            self.rule.nplurals(),
            self.rule.program(),
            context,
            id,
            plural,
            steps,
        );
        let (text, found) = match located.place {
            Place::Translation { start, end } => (&view.bytes()[start..end], true),
            Place::Id | Place::Plural => (untranslated_text(id, plural), false),
        };
        Answer {
            text,
            found,
            comparisons: located.comparisons,
            steps: located.steps,
        }
    }
}
