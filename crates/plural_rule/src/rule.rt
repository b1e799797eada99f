//! The rule of a header text.
ghost use Rattle.std.specs.Prelude.{◌≡◌, ◌≤◌, [], length, take, MatchResult};
ghost use Rattle.plural_rule.specs.declared.rule.Reason.{Reason};
ghost use Rattle.plural_rule.specs.Prelude.{value, visited, nodes, IsRuleOf, IsReason, default_rule, expression_limit, rule_in, program_in, program as program_of, tree_of};
ghost use Rattle.plural_rule.specs.Internal.ParserState.{HoldsRule};

use crate::evaluator::evaluate;
use crate::instruction::Instruction;
use crate::parser_state::Room;
use crate::steps::Steps;
use crate::{header, lexer, parser};
use std::marker::Model;

/// The most bytes that an expression may have, and so the most nodes.
pub const EXPRESSION_LIMIT: usize = 4096;

/// The program of `n != 1`.
const DEFAULT_PROGRAM: [Instruction; 3] = [
    Instruction {
        kind: 0,
        operator: 0,
        count: 2,
        number: 0,
    },
    Instruction {
        kind: 1,
        operator: 0,
        count: 1,
        number: 1,
    },
    Instruction {
        kind: 4,
        operator: 3,
        count: 0,
        number: 0,
    },
];

/// Where a rule comes from.
#[derive(Clone, Copy, Debug, PartialEq, Eq, Drop)]
pub enum Source {
    /// The header text names it.
    Header,
    /// The header text names no rule that can be read, so the rule is `nplurals=2; plural=n != 1;`.
    Default(Reason),
}

/// Why a header text gives the default rule. Where several hold, the first of `NoNumber`,
/// `NoExpression`, `TooLong`, `Unreadable` is reported.
#[derive(Clone, Copy, Debug, PartialEq, Eq, Drop)]
pub enum Reason {
    /// There is no `nplurals=` with a number after it.
    NoNumber,
    /// There is no `plural=`.
    NoExpression,
    /// The number of plural forms or a numeral is 2^64 or more, or the expression isn't one of the
    /// grammar.
    Unreadable,
    /// The expression has more than `EXPRESSION_LIMIT` bytes.
    TooLong,
}

/// A plural rule: the number of plural forms, and the expression that chooses one for a count.
///
/// It allocates nothing: the program of the expression is part of the value, which has about 33 KB,
/// so pass it by reference. See the GNU gettext manual, "Plural forms".
#[derive(Drop)]
pub struct Rule {
    parsed: ParsedRule,
    room: [Instruction; EXPRESSION_LIMIT],
}

/// A plural rule whose program stands in memory of the caller.
#[derive(Clone, Copy, Drop)]
pub struct ParsedRule {
    /// Where the rule comes from.
    pub source: Source,
    /// The number of plural forms.
    pub nplurals: u64,
    /// How many instructions the program has.
    pub instruction_count: u32,
}

impl Model for Rule {
    ghost use Rattle.std.specs.Prelude.{take};
    ghost use Rattle.std.specs.Coded.{codes};
    ghost use Rattle.plural_rule.specs.Prelude.{IsParsed, RuleView, tree_of, tree_code};

    ghost Value = { RuleView };

    ghost coded = { Prim.hlevel (codes, tree_code (Prim.hlevel codes)) };

    ghost view = { λ r. record {
      source = r.parsed.source;
      nplurals = r.parsed.nplurals;
      tree = tree_of (take r.parsed.instruction_count r.room);
    } };

    ghost invariant = { λ r. IsParsed r.parsed r.room };
}

impl Rule {
    /// The rule that a header text gives.
    ///
    /// The number of plural forms stands after the first `nplurals=`, and the expression after the
    /// first `plural=`, up to the first `;` or LF, or to the end. Where one of them is missing or
    /// can't be read, the rule is the default, and `source` says why.
    #[inline(always)]
    pub fn parse(header: &[u8]) -> Rule
        ensures { IsRuleOf expression_limit header.now result }
    {
        let mut rule = Rule::of_no_header();
        rule.reparse(header);
        rule
    }

    /// The rule of an empty header text, which is the default one.
    #[inline(always)]
    pub fn of_no_header() -> Rule
        ensures { IsRuleOf expression_limit [] result }
    {
        let mut room = [Instruction::default(); EXPRESSION_LIMIT];
        room[0] = DEFAULT_PROGRAM[0];
        room[1] = DEFAULT_PROGRAM[1];
        room[2] = DEFAULT_PROGRAM[2];
        Rule {
            parsed: ParsedRule {
                source: Source::Default(Reason::NoNumber),
                nplurals: 2,
                instruction_count: 3,
            },
            room,
        }
    }

    /// Reads the rule of a header text, as [`Rule::parse`] does, in the place of this rule.
    #[inline(always)]
    pub fn reparse(&mut self, header: &[u8])
        ensures { IsRuleOf expression_limit header.now self.new }
    {
        self.parsed = Rule::parse_into(header, &mut self.room);
    }

    /// The rule of a header, with its program at the beginning of `room`, as [`evaluate`] takes it.
    #[inline(never)]
    pub fn parse_into(header: &[u8], room: &mut [Instruction; EXPRESSION_LIMIT]) -> ParsedRule
        ensures rule { IsRuleOf expression_limit header.now (rule_in result room.new) }
        ensures program { program_in result room.new ≡ program_of 0 (rule_in result room.new).tree }
        ensures limit { result.instruction_count ≤ expression_limit }
    {
        match read(header, room) {
            Ok((nplurals, len)) => ParsedRule {
                source: Source::Header,
                nplurals,
                instruction_count: len as u32,
            },
            Err(reason) => {
                room[..3].copy_from_slice(&DEFAULT_PROGRAM);
                ParsedRule {
                    source: Source::Default(reason),
                    nplurals: 2,
                    instruction_count: 3,
                }
            }
        }
    }

    /// Where the rule comes from.
    pub fn source(&self) -> Source
        ensures { result ≡ self.now.source }
    {
        self.parsed.source
    }

    /// The number of plural forms.
    pub fn nplurals(&self) -> u64
        ensures { result ≡ self.now.nplurals }
    {
        self.parsed.nplurals
    }

    /// How many nodes the expression has: `n`, numerals and operators.
    pub fn nodes(&self) -> u32
        ensures value { result ≡ nodes self.now.tree }
        ensures limit { result ≤ expression_limit }
        ensures some { 1 ≤ result }
    {
        let instructions = self.program();
        let mut count = 0;
        for instruction in instructions {
            if instruction.kind < 3 {
                count += instruction.count as u32;
            }
        }
        count
    }

    /// The value of the expression at a count, or `None` where it divides by 0, and how many nodes
    /// were evaluated.
    pub fn eval(&self, count: u64) -> (Option<u64>, u32)
        ensures value { result.0 ≡ value self.now.tree count }
        ensures steps { result.1 ≡ visited self.now.tree count }
        ensures bound { result.1 ≤ nodes self.now.tree }
    {
        let mut steps = Steps::new();
        let value = evaluate(self.program(), count, &mut steps);
        (value, steps.count() as u32)
    }

    /// The program of the expression, as [`evaluate`] takes it.
    pub fn program(&self) -> &[Instruction]
        ensures program { result.now ≡ program_of 0 self.now.tree }
        ensures tree { tree_of result.now ≡ self.now.tree }
        ensures limit { length result.now ≤ expression_limit }
    {
        &self.room[..self.parsed.instruction_count as usize]
    }
}

/// Reads the number of plural forms of a header, and the program of its expression to the first
/// instructions of `room`: how many these are.
fn read(header: &[u8], room: &mut Room) -> Result<(u64, usize), Reason>
    ensures { MatchResult result
        (λ r. (r.1 ≤ expression_limit) × HoldsRule expression_limit header.now r.0 (take r.1 room.new))
        (λ reason. IsReason expression_limit header.now reason) }
{
    let Some(digits) = header::nplurals_digits(header) else {
        return Err(Reason::NoNumber);
    };
    let Some(text) = header::expression(header) else {
        return Err(Reason::NoExpression);
    };
    if text.len() > EXPRESSION_LIMIT {
        return Err(Reason::TooLong);
    }
    let Some(nplurals) = lexer::decimal_value(digits) else {
        return Err(Reason::Unreadable);
    };
    let Some(len) = parser::parse(text, room) else {
        return Err(Reason::Unreadable);
    };
    Ok((nplurals, len))
}
