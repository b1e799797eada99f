//! The tokens of a plural expression.
ghost use Rattle.std.specs.Prelude.{◌≡◌};
ghost use Rattle.plural_rule.specs.Internal.Parser.{closing_level};

use crate::operator::Operator;

/// A token of a plural expression.
#[derive(Clone, Copy, Drop)]
pub(crate) enum Token {
    /// `n`
    Count,
    /// A decimal numeral.
    Number(u64),
    /// `!`
    Not,
    /// An operator of two operands.
    Binary(Operator),
    /// `?`
    Question,
    /// `:`
    Colon,
    /// `(`
    Open,
    /// `)`
    Close,
}

impl Token {
    /// The level down to which an operand before it is completed: that of an operator of two
    /// operands. `?:` groups to the right, so `?` leaves what waits after a `:`.
    pub(crate) fn closing_level(self) -> u8
        ensures { result ≡ closing_level self }
    {
        match self {
            Token::Binary(operator) => operator.level(),
            Token::Question => 1,
            _ => 0,
        }
    }
}
