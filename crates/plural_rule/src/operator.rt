//! The operators of two operands in a plural expression.
ghost use Rattle.std.specs.Prelude.{◌≡◌};
ghost use Rattle.plural_rule.specs.Prelude.{combined, needs_right, level, is_lazy, operator_of};

/// An operator of two operands, with the meaning that it has in C for unsigned numbers of 64 bits.
#[derive(Clone, Copy, Drop)]
pub(crate) enum Operator {
    /// `||`
    Or,
    /// `&&`
    And,
    /// `==`
    Equal,
    /// `!=`
    NotEqual,
    /// `<`
    Less,
    /// `>`
    Greater,
    /// `<=`
    AtMost,
    /// `>=`
    AtLeast,
    /// `+`
    Add,
    /// `-`
    Subtract,
    /// `*`
    Multiply,
    /// `/`
    Divide,
    /// `%`
    Remainder,
}

impl Operator {
    /// How tight the operator binds, from 1 for `||` to 6 for `*`, `/` and `%`.
    pub(crate) fn level(self) -> u8
        ensures { result ≡ level self }
    {
        match self {
            Operator::Or => 1,
            Operator::And => 2,
            Operator::Equal | Operator::NotEqual => 3,
            Operator::Less | Operator::Greater | Operator::AtMost | Operator::AtLeast => 4,
            Operator::Add | Operator::Subtract => 5,
            Operator::Multiply | Operator::Divide | Operator::Remainder => 6,
        }
    }

    /// The operator for which a number stands; any number above 11 stands for `%`.
    pub(crate) fn of_code(code: u8) -> Operator
        ensures { result ≡ operator_of code }
    {
        match code {
            0 => Operator::Or,
            1 => Operator::And,
            2 => Operator::Equal,
            3 => Operator::NotEqual,
            4 => Operator::Less,
            5 => Operator::Greater,
            6 => Operator::AtMost,
            7 => Operator::AtLeast,
            8 => Operator::Add,
            9 => Operator::Subtract,
            10 => Operator::Multiply,
            11 => Operator::Divide,
            _ => Operator::Remainder,
        }
    }

    /// Whether the second operand isn't always evaluated.
    pub(crate) fn is_lazy(self) -> bool
        ensures { result ≡ is_lazy self }
    {
        matches!(self, Operator::Or | Operator::And)
    }

    /// Whether the second operand is evaluated, where the value of the first is `left`.
    pub(crate) fn needs_right(self, left: u64) -> bool
        ensures { result ≡ needs_right self left }
    {
        match self {
            Operator::Or => left == 0,
            Operator::And => left != 0,
            _ => true,
        }
    }

    /// The value where both operands are evaluated, or `None` for a division by 0.
    pub(crate) fn combined(self, left: u64, right: u64) -> Option<u64>
        ensures { result ≡ combined self left right }
    {
        let value = match self {
            Operator::Or | Operator::And => (right != 0) as u64,
            Operator::Equal => (left == right) as u64,
            Operator::NotEqual => (left != right) as u64,
            Operator::Less => (left < right) as u64,
            Operator::Greater => (right < left) as u64,
            Operator::AtMost => (left <= right) as u64,
            Operator::AtLeast => (right <= left) as u64,
            Operator::Add => left.wrapping_add(right),
            Operator::Subtract => left.wrapping_sub(right),
            Operator::Multiply => left.wrapping_mul(right),
            Operator::Divide => return left.checked_div(right),
            Operator::Remainder => return left.checked_rem(right),
        };
        Some(value)
    }
}
