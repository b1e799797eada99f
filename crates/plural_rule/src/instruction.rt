//! The instructions of a program that computes an expression.
ghost use Rattle.std.specs.Prelude.{◌≡◌, ◌≢◌, ◌+◌, ◌^◌, ◌<◌, MatchOption};
ghost use Rattle.plural_rule.specs.declared.instruction.Action.TheVariants.{Binary};
ghost use Rattle.plural_rule.specs.declared.operator.Operator.{Operator};
ghost use Rattle.plural_rule.specs.Prelude.{binary_instruction, action_of, begins};

use crate::operator::Operator;
use crate::steps::Steps;

/// An instruction of a program: plain numbers, so that C can hold a program too.
///
/// What isn't named below is 0.
#[repr(C)]
#[derive(Clone, Copy, Default, Drop)]
pub struct Instruction {
    /// 0 for `n`, the count that the rule is asked for; 1 for a numeral below 2^32; 2 for the high
    /// half of another one, whose low half is in the next instruction; 3 for `!`, and 4 for an
    /// operator of two operands, after its operands; 5 for `||` and `&&` before the second operand;
    /// 6 for `?` and 7 for `:` between their operands, and for the low half of a numeral.
    pub kind: u8,
    /// Of an operator of two operands: 0 to 12 for `||`, `&&`, `==`, `!=`, `<`, `>`, `<=`, `>=`,
    /// `+`, `-`, `*`, `/`, `%`.
    pub operator: u8,
    /// Of `n` and of a numeral: how many nodes begin with it. Of kinds 5 to 7: how many
    /// instructions are skipped, at 5 and 6 where the next operand isn't needed.
    pub count: u16,
    /// Of a numeral, its value or one half of it.
    pub number: u32,
}

/// What an instruction does.
#[derive(Clone, Copy, Drop)]
pub(crate) enum Action {
    /// `n`
    Count,
    /// A numeral.
    Number(u32),
    /// The high half of a numeral.
    Wide(u32),
    /// `!`
    Not,
    /// An operator after both operands.
    Binary(Operator),
    /// `||` or `&&` before the second operand, and how many instructions that skips.
    Branch(Operator, u16),
    /// `?`, and how many instructions it skips where the condition is 0.
    Choose(u16),
    /// `:`, and how many instructions it skips.
    Jump(u16),
}

impl Instruction {
    /// `n`
    pub(crate) const COUNT: Instruction = Instruction {
        kind: 0,
        operator: 0,
        count: 1,
        number: 0,
    };

    /// `!`
    pub(crate) const NOT: Instruction = Instruction {
        kind: 3,
        operator: 0,
        count: 0,
        number: 0,
    };

    /// `?`, which skips nothing yet.
    pub(crate) const CHOOSE: Instruction = Instruction {
        kind: 6,
        operator: 0,
        count: 0,
        number: 0,
    };

    /// `:`, which skips nothing yet.
    pub(crate) const JUMP: Instruction = Instruction {
        kind: 7,
        operator: 0,
        count: 0,
        number: 0,
    };

    /// An operator after both operands.
    pub(crate) fn binary(operator: Operator) -> Instruction
        ensures { result ≡ binary_instruction operator }
    {
        Instruction {
            kind: 4,
            operator: operator as u8,
            count: 0,
            number: 0,
        }
    }

    /// What the instruction does, which counts the nodes that begin with it.
    #[inline(always)]
    pub(crate) fn action(self, steps: &mut Steps) -> Action
        requires { steps.old + 2 ^ 16 < 2 ^ 64 }
        ensures action { result ≡ action_of self }
        ensures counted { steps.new ≡ steps.old + begins self }
        ensures few { steps.new < steps.old + 2 ^ 16 }
    {
        if self.kind < 3 {
            steps.add(self.count);
        }
        match self.kind {
            0 => Action::Count,
            1 => Action::Number(self.number),
            2 => Action::Wide(self.number),
            3 => Action::Not,
            4 => Action::Binary(Operator::of_code(self.operator)),
            5 => Action::Branch(Operator::of_code(self.operator), self.count),
            6 => Action::Choose(self.count),
            _ => Action::Jump(self.count),
        }
    }

    /// The operator, of an instruction that is one of two operands.
    #[inline(always)]
    pub(crate) fn operator(self) -> Option<Operator>
        ensures { MatchOption result ((op : Operator) → action_of self ≢ Binary op) (λ op. action_of self ≡ Binary op) }
    {
        if self.kind == 4 {
            Some(Operator::of_code(self.operator))
        } else {
            None
        }
    }
}
