//! What waits for its last operand while an expression is read.
ghost use Rattle.std.specs.Prelude.{◌≡◌, ◌+◌, ◌-◌, ◌<◌, ◌≤◌, [], ◌∷◌, length, MatchOption, false};
ghost use Rattle.plural_rule.specs.Internal.Pending.{binds, pending_of, within, entries_in};

use crate::instruction::Instruction;
use crate::operator::Operator;
use crate::parser_state::Parser;

/// What waits for its last operand, with the index at which its instructions begin.
#[derive(Clone, Copy, Drop)]
pub(crate) enum Pending {
    /// `(`
    Open,
    /// `!`
    Not,
    /// `a` and an operator
    Binary(Operator, u16),
    /// `a ?`
    Question(u16),
    /// `a ? b :`
    Colon(u16),
}

impl Pending {
    /// Whether an operand completes it, where an operator of level `next_level` follows.
    pub(crate) fn binds(self, next_level: u8) -> bool
        ensures { result ≡ binds next_level self }
    {
        match self {
            Pending::Not => true,
            Pending::Binary(operator, _) => next_level <= operator.level(),
            Pending::Colon(_) => next_level == 0,
            Pending::Open | Pending::Question(_) => false,
        }
    }

    /// The number that stands for it: 12 bits for the index, and 4 for the rest.
    #[inline(always)]
    fn code(self) -> u16
        ensures { pending_of result ≡ within self }
    {
        match self {
            Pending::Open => 0,
            Pending::Not => 1,
            Pending::Question(first) => 4096 + first % 4096,
            Pending::Colon(first) => 8192 + first % 4096,
            Pending::Binary(operator, first) => {
                4096 * (3 + Instruction::binary(operator).operator as u16) + first % 4096
            }
        }
    }

    /// That for which a number stands.
    #[inline(always)]
    fn of_code(code: u16) -> Pending
        ensures { result ≡ pending_of code }
    {
        let first = code % 4096;
        match code / 4096 {
            0 if first == 0 => Pending::Open,
            0 => Pending::Not,
            1 => Pending::Question(first),
            2 => Pending::Colon(first),
            kind => Pending::Binary(Operator::of_code((kind - 3) as u8), first),
        }
    }
}

/// Adds to what waits, with an index below 4,096, where the parser has `len` instructions: what it
/// holds then.
#[inline(always)]
pub(crate) fn wait(codes: &mut [u16], len: usize, before: Parser, pending: Pending) -> Parser
    requires { before.count < length codes.old }
    ensures entries { entries_in codes.new (before.count + 1) ≡ within pending ∷ entries_in codes.old before.count }
    ensures parser { result ≡ record { len = len; count = before.count + 1; start = before.start; complete = false } }
{
    codes[before.count] = pending.code();
    Parser::new(len, before.count + 1, before.start, false)
}

/// The newest of what waits.
#[inline(always)]
pub(crate) fn newest(codes: &[u16], count: usize) -> Option<Pending>
    requires { count ≤ length codes.now }
    ensures { MatchOption result (entries_in codes.now count ≡ [])
        (λ top. (entries_in codes.now count ≡ top ∷ entries_in codes.now (count - 1)) × (within top ≡ top) × (0 < count)) }
{
    if count == 0 {
        return None;
    }
    Some(Pending::of_code(codes[count - 1]))
}
