//! Reads an expression by operator precedence.
//!
//! The grammar is C's, as the GNU gettext manual has it in "Plural forms", with the loosest
//! operators first:
//!
//! ```text
//! expression     = or | or "?" expression ":" expression
//! or             = and            | or "||" and
//! and            = equality       | and "&&" equality
//! equality       = comparison     | equality ("==" | "!=") comparison
//! comparison     = sum            | comparison ("<" | ">" | "<=" | ">=") sum
//! sum            = product        | sum ("+" | "-") product
//! product        = unary          | product ("*" | "/" | "%") unary
//! unary          = "!" unary | "(" expression ")" | "n" | numeral
//! ```
//!
//! The instructions stand in memory of the caller, and what waits for an operand in an array of
//! fixed size, so the machine's stack doesn't grow with the expression.
ghost use Rattle.std.specs.Prelude.{◌≡◌, ◌≤◌, List, None, length, take, MatchOption, ⊤};
ghost use Rattle.plural_rule.specs.Prelude.{Tree, Spelt, expression_limit};
ghost use Rattle.plural_rule.specs.Internal.Parser.{Waiting, State, reduce, want_step, at_operator, step, finish};
ghost use Rattle.plural_rule.specs.Internal.ParserState.{held, IsWaiting, IsOperand, Represents, Answers, HoldsTree, HoldsExpression, HasRoom, Grows, most_added};

use crate::instruction::Instruction;
use crate::lexer;
use crate::parser_state::{
    Parser, Room, begin, complete, push, push_branch, push_numeral, skip_operand,
};
use crate::pending::{Pending, newest, wait};
use crate::token::Token;

/// The most bytes of a text that is read with the smaller stack: the larger one takes longer to set
/// up.
const SHORT: usize = 240;

/// Completes what waits for the last operand and binds at least as tight as `next_level`.
#[inline(always)]
fn reduce(room: &mut Room, codes: &[u16], before: Parser, next_level: u8) -> Parser
    requires room { HasRoom codes.now before 0 0 }
    ensures reduced { (waiting : List Waiting) (tree : Tree) → IsOperand (held room.old codes.now before) waiting tree →
        IsOperand (held room.new codes.now result) (reduce next_level waiting tree).stack (reduce next_level waiting tree).tree }
    ensures room { Grows codes.now before codes.now result 0 0 }
{
    let mut parser = before;
    while let Some(top) = newest(codes, parser.count) {
        if !top.binds(next_level) {
            return parser;
        }
        let (len, start) = complete(room, parser.len, parser.start, top);
        parser = Parser::new(len, parser.count - 1, start, true);
    }
    parser
}

/// Reads a token where an operand may begin, or `None` where it can't stand here.
#[inline(always)]
fn take_operand(room: &mut Room, codes: &mut [u16], parser: Parser, token: Token) -> Option<Parser>
    requires room { HasRoom codes.old parser (most_added token) 1 }
    ensures step { (waiting : List Waiting) → IsWaiting (held room.old codes.old parser) waiting →
        Answers (want_step waiting token) result room.new codes.new }
    ensures room { MatchOption result ⊤ (λ after. Grows codes.old parser codes.new after (most_added token) 1) }
{
    match token {
        Token::Count => {
            let len = push(room, parser.len, Instruction::COUNT);
            Some(Parser::new(len, parser.count, parser.len as u16, true))
        }
        Token::Number(number) => {
            let len = push_numeral(room, parser.len, number);
            Some(Parser::new(len, parser.count, parser.len as u16, true))
        }
        Token::Not => Some(wait(codes, parser.len, parser, Pending::Not)),
        Token::Open => Some(wait(codes, parser.len, parser, Pending::Open)),
        _ => None,
    }
}

/// Reads a token after a complete operand that what waits has been completed with, or `None` where
/// it can't stand here.
#[inline(always)]
fn take_operator(room: &mut Room, codes: &mut [u16], parser: Parser, token: Token) -> Option<Parser>
    requires room { HasRoom codes.old parser (most_added token) 1 }
    ensures step { (stack : List Waiting) (tree : Tree) → IsOperand (held room.old codes.old parser) stack tree →
        Answers (at_operator (record { stack = stack; tree = tree }) token) result room.new codes.new }
    ensures room { MatchOption result ⊤ (λ after. Grows codes.old parser codes.new after (most_added token) 1) }
{
    match token {
        Token::Binary(operator) => {
            begin(room, parser.len, parser.start);
            let len = push_branch(room, parser.len, operator);
            Some(wait(codes, len, parser, Pending::Binary(operator, parser.start)))
        }
        Token::Question => {
            begin(room, parser.len, parser.start);
            let len = push(room, parser.len, Instruction::CHOOSE);
            Some(wait(codes, len, parser, Pending::Question(parser.start)))
        }
        Token::Colon => {
            let Some(Pending::Question(first)) = newest(codes, parser.count) else {
                return None;
            };
            skip_operand(room, parser.len, parser.start, 1);
            let len = push(room, parser.len, Instruction::JUMP);
            let before = Parser::new(parser.len, parser.count - 1, parser.start, true);
            Some(wait(codes, len, before, Pending::Colon(first)))
        }
        Token::Close => {
            let Some(Pending::Open) = newest(codes, parser.count) else {
                return None;
            };
            Some(Parser::new(parser.len, parser.count - 1, parser.start, true))
        }
        _ => None,
    }
}

/// Reads a token, or `None` where it can't stand here.
#[inline(always)]
fn take(room: &mut Room, codes: &mut [u16], parser: Parser, token: Token) -> Option<Parser>
    requires room { HasRoom codes.old parser (most_added token) 1 }
    ensures step { (state : State) → Represents (held room.old codes.old parser) parser.complete state →
        Answers (step state token) result room.new codes.new }
    ensures room { MatchOption result ⊤ (λ after. Grows codes.old parser codes.new after (most_added token) 1) }
{
    if parser.complete {
        let reduced = reduce(room, codes, parser, token.closing_level());
        take_operator(room, codes, reduced, token)
    } else {
        take_operand(room, codes, parser, token)
    }
}

/// How many instructions the tokens' expression has, where they end with a whole one.
#[inline(always)]
fn finish(room: &mut Room, codes: &[u16], before: Parser) -> Option<usize>
    requires room { HasRoom codes.now before 0 0 }
    ensures tree { (state : State) → Represents (held room.old codes.now before) before.complete state →
        MatchOption result (finish state ≡ None) (λ len. HoldsTree (finish state) (take len room.new)) }
    ensures limit { MatchOption result ⊤ (λ len. len ≤ expression_limit) }
{
    if !before.complete {
        return None;
    }
    let parser = reduce(room, codes, before, 0);
    match newest(codes, parser.count) {
        Some(_) => None,
        None => Some(parser.len),
    }
}

/// How many instructions the program of the expression that a text spells has, which then are the
/// first of `room`.
pub(crate) fn parse(text: &[u8], room: &mut Room) -> Option<usize>
    requires { length text.now ≤ expression_limit }
    ensures { MatchOption result ((tree : Tree) → Spelt tree text.now → ⊥)
        (λ len. (len ≤ expression_limit) × HoldsExpression text.now (take len room.new)) }
{
    if text.len() <= SHORT {
        parse_within::<240>(text, room)
    } else {
        parse_within::<4096>(text, room)
    }
}

/// Parses an expression with room for `N` operators that wait.
#[inline(never)]
fn parse_within<const N: usize>(text: &[u8], room: &mut Room) -> Option<usize>
    requires room { length text.now ≤ N }
    requires limit { N ≤ expression_limit }
    ensures { MatchOption result ((tree : Tree) → Spelt tree text.now → ⊥)
        (λ len. (len ≤ expression_limit) × HoldsExpression text.now (take len room.new)) }
{
    let mut codes = [0; N];
    let mut parser = Parser::new(0, 0, 0, false);
    let mut rest = lexer::without_blanks(text);
    while !rest.is_empty() {
        let Some((token, token_len)) = lexer::token(rest) else {
            return None;
        };
        let Some(after) = take(room, &mut codes, parser, token) else {
            return None;
        };
        parser = after;
        rest = lexer::without_blanks(&rest[token_len..]);
    }
    finish(room, &codes, parser)
}
