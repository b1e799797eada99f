//! What the parser holds: the instructions so far, and what waits for an operand.
ghost use Rattle.std.specs.Prelude.{◌≡◌, ◌+◌, ◌-◌, ◌<◌, ◌≤◌, [], ◌∷◌, ◌++◌, length, take};
ghost use Rattle.plural_rule.specs.Internal.ParserState.{begun, skipping, completed_program, first_of};
ghost use Rattle.plural_rule.specs.Internal.Pending.{weight_of};
ghost use Rattle.plural_rule.specs.Prelude.{expression_limit, numeral_then, branch_then};

use crate::instruction::Instruction;
use crate::operator::Operator;
use crate::pending::Pending;
use crate::rule::EXPRESSION_LIMIT;

/// The memory of the caller, whose first instructions are the program.
pub(crate) type Room = [Instruction; EXPRESSION_LIMIT];

/// What the parser holds beside the instructions and the codes of what waits: how many there are of
/// each, where the last complete operand begins, and whether the text ends with it.
#[derive(Clone, Copy, Drop)]
pub(crate) struct Parser {
    pub(crate) len: usize,
    pub(crate) count: usize,
    pub(crate) start: u16,
    pub(crate) complete: bool,
}

impl Parser {
    /// These numbers, in the order of the fields.
    #[inline(always)]
    pub(crate) fn new(len: usize, count: usize, start: u16, complete: bool) -> Parser
        ensures { result ≡ record { len = len; count = count; start = start; complete = complete } }
    {
        Parser {
            len,
            count,
            start,
            complete,
        }
    }
}

/// Adds an instruction to a program of `len` instructions: how many there are then.
#[inline(always)]
pub(crate) fn push(room: &mut Room, len: usize, instruction: Instruction) -> usize
    requires { len < expression_limit }
    ensures items { take result room.new ≡ take len room.old ++ instruction ∷ [] }
    ensures len { result ≡ len + 1 }
{
    room[len] = instruction;
    len + 1
}

/// Adds the instruction between the operands of `||` or `&&`: how many instructions there are then.
pub(crate) fn push_branch(room: &mut Room, len: usize, operator: Operator) -> usize
    requires { len + length (branch_then operator 0 []) ≤ expression_limit }
    ensures items { take result room.new ≡ take len room.old ++ branch_then operator 0 [] }
    ensures len { result ≡ len + length (branch_then operator 0 []) }
{
    if !operator.is_lazy() {
        return len;
    }
    let branch = Instruction {
        kind: 5,
        operator: operator as u8,
        count: 0,
        number: 0,
    };
    push(room, len, branch)
}

/// Counts one more node that begins with the instruction at an index.
pub(crate) fn begin(room: &mut Room, len: usize, index: u16)
    requires { len ≤ expression_limit }
    ensures { take len room.new ≡ begun index (take len room.old) }
{
    if (index as usize) < len {
        let mut instruction = room[index as usize];
        instruction.count = instruction.count.wrapping_add(1);
        room[index as usize] = instruction;
    }
}

/// Lets the instruction before the last operand, which begins at `start`, skip it and `more`
/// others.
pub(crate) fn skip_operand(room: &mut Room, len: usize, start: u16, more: u16)
    requires len { len ≤ expression_limit }
    requires more { more ≤ 1 }
    ensures { take len room.new ≡ skipping (start - 1) (length (take len room.old) - start + more) (take len room.old) }
{
    let index = start.saturating_sub(1) as usize;
    if index < len {
        let mut instruction = room[index];
        instruction.count = (len as u16).saturating_sub(start) + more;
        room[index] = instruction;
    }
}

/// Adds a numeral: how many instructions there are then.
pub(crate) fn push_numeral(room: &mut Room, len: usize, value: u64) -> usize
    requires { len + length (numeral_then 1 value []) ≤ expression_limit }
    ensures items { take result room.new ≡ take len room.old ++ numeral_then 1 value [] }
    ensures len { result ≡ len + length (numeral_then 1 value []) }
{
    if value < 4294967296 {
        let number = Instruction {
            kind: 1,
            operator: 0,
            count: 1,
            number: value as u32,
        };
        return push(room, len, number);
    }
    let high = Instruction {
        kind: 2,
        operator: 0,
        count: 1,
        number: (value / 4294967296) as u32,
    };
    let low = Instruction {
        kind: 7,
        operator: 0,
        count: 0,
        number: (value % 4294967296) as u32,
    };
    let len = push(room, len, high);
    push(room, len, low)
}

/// Completes what waits for the last operand, which begins at `start`: how many instructions there
/// are then, and where the new operand begins.
#[inline(always)]
pub(crate) fn complete(room: &mut Room, len: usize, start: u16, top: Pending) -> (usize, u16)
    requires { len + weight_of top ≤ expression_limit }
    ensures { (take result.0 room.new ≡ completed_program top start (take len room.old)) ×
        (result.1 ≡ first_of top start) × (result.0 ≤ len + weight_of top) }
{
    match top {
        Pending::Not => {
            begin(room, len, start);
            (push(room, len, Instruction::NOT), start)
        }
        Pending::Binary(operator, first) => {
            if operator.is_lazy() {
                skip_operand(room, len, start, 1);
            }
            (push(room, len, Instruction::binary(operator)), first)
        }
        Pending::Colon(first) => {
            skip_operand(room, len, start, 0);
            (len, first)
        }
        Pending::Question(_) | Pending::Open => (len, start),
    }
}
