//! The value of an expression at a count, by its program: one instruction after the other, with
//! jumps that go forward only.
ghost use Rattle.std.specs.Prelude.{◌≡◌, ℕ, ◌+◌, ◌*◌, ◌^◌, ◌<◌, ◌≤◌, List, ◌∷◌, length, drop, slice_index_or, Some};
ghost use Rattle.plural_rule.specs.Prelude.{count_instruction, begins, nodes, value, visited, expression_limit, program, tree_of, low_of};
ghost use Rattle.plural_rule.specs.Internal.Evaluator.{act, left_by, go_on, run, stored, Outcome};

use crate::instruction::{Action, Instruction};
use crate::steps::Steps;

/// The most instructions of a program that runs with the smallest stack: a larger one takes longer
/// to set up.
const TINY: usize = 16;

/// The most instructions of a program that runs with the next larger stack.
const SHORT: usize = 48;

/// The most instructions of a program that runs with little more of the machine's stack.
const MEDIUM: usize = 128;

/// The value of the expression with this program at `count`, or `None` where it divides by 0. Each
/// node that is evaluated is counted as one step; before the call the count is below 2^63.
pub fn evaluate(instructions: &[Instruction], count: u64, steps: &mut Steps) -> Option<u64>
    requires program { instructions.now ≡ program 0 (tree_of instructions.now) }
    requires limit { length instructions.now ≤ expression_limit }
    requires room { steps.old < 2 ^ 63 }
    ensures value { result ≡ value (tree_of instructions.now) count }
    ensures steps { steps.new ≡ steps.old + visited (tree_of instructions.now) count }
    ensures bound { steps.new ≤ steps.old + nodes (tree_of instructions.now) }
    ensures few { steps.new ≤ steps.old + expression_limit }
{
    if instructions.len() <= TINY {
        evaluate_within::<11>(instructions, count, steps)
    } else if instructions.len() <= SHORT {
        evaluate_within::<27>(instructions, count, steps)
    } else if instructions.len() <= MEDIUM {
        evaluate_within::<67>(instructions, count, steps)
    } else {
        evaluate_within::<2051>(instructions, count, steps)
    }
}

/// What an instruction does: the value that it adds, or `None` where it divides by 0, how many
/// values it takes, and how many instructions it skips.
type Effect = (Option<u64>, usize, u16);

/// The value of the expression at `count`, with room for `N` values: half of the instructions
/// suffice, since an operator takes two.
///
/// The newest value stands beside the array, whose first value is none of the program's.
#[inline(never)]
fn evaluate_within<const N: usize>(
    instructions: &[Instruction],
    count: u64,
    steps: &mut Steps,
) -> Option<u64>
    requires program { instructions.now ≡ program 0 (tree_of instructions.now) }
    requires room { length instructions.now + 5 ≤ 2 * N }
    requires size { N ≤ expression_limit }
    requires start { steps.old < 2 ^ 63 }
    ensures value { result ≡ value (tree_of instructions.now) count }
    ensures steps { steps.new ≡ steps.old + visited (tree_of instructions.now) count }
    ensures bound { steps.new ≤ steps.old + nodes (tree_of instructions.now) }
    ensures few { steps.new ≤ steps.old + length instructions.now }
{
    let mut stack = [0; N];
    let mut len = 1;
    let mut newest = 0;
    let mut index = 0;
    while index < instructions.len() {
        let (value, taken, skip) = step(instructions, index, count, newest, stack[len - 1], steps);
        let Some(value) = value else {
            return None;
        };
        len = keep(&mut stack, len, newest, taken);
        newest = value;
        index = index + 1 + skip as usize;
    }
    Some(newest)
}

/// Keeps the values before the newest, where an instruction takes some and adds one: how many there
/// are.
#[inline(always)]
fn keep<const N: usize>(stack: &mut [u64; N], len: usize, newest: u64, taken: usize) -> usize
    requires some { 1 ≤ len }
    requires room { len < N }
    requires taken { taken ≤ 2 }
    ensures { stored stack.new result ≡ drop taken (newest ∷ stored stack.old len) }
{
    match taken {
        0 => {
            stack[len] = newest;
            len + 1
        }
        1 => len,
        _ => len - 1,
    }
}

/// What the instruction at an index does, where these are the newest values, and with it an
/// operator right after an operand.
#[inline(always)]
fn step(
    instructions: &[Instruction],
    index: usize,
    count: u64,
    newest: u64,
    below: u64,
    steps: &mut Steps,
) -> Effect
    requires inside { index < length instructions.now }
    requires few { steps.old + 2 ^ 16 < 2 ^ 64 }
    ensures next { (room : ℕ) (older : List ℕ) (o : Outcome) →
        run room count (drop index instructions.now) 0 (newest ∷ below ∷ older) steps.old ≡ Some o →
        go_on (run room count (drop (index + 1) instructions.now)) steps.new
        (left_by result.0 result.1 result.2 (newest ∷ below ∷ older)) ≡ Some o }
    ensures counted { steps.new ≡ steps.old + begins (slice_index_or instructions.now index (count_instruction 0)) }
    ensures few { steps.new < steps.old + 2 ^ 16 }
    ensures taken { result.1 ≤ 2 }
{
    let operand = match instructions[index].action(steps) {
        Action::Count => count,
        Action::Number(number) => number as u64,
        action => return act(action, instructions, index + 1, count, newest, below),
    };
    match instruction_at(instructions, index + 1).operator() {
        Some(operator) => (operator.combined(newest, operand), 1, 1),
        None => (Some(operand), 0, 0),
    }
}

/// The instruction at an index, or one that isn't an operator where the program has ended.
#[inline(always)]
fn instruction_at(instructions: &[Instruction], index: usize) -> Instruction
    ensures { result ≡ slice_index_or instructions.now index (count_instruction 0) }
{
    if index < instructions.len() {
        instructions[index]
    } else {
        Instruction::default()
    }
}

/// What an instruction does, where these are the newest values, and the next one stands at an
/// index.
#[inline(always)]
fn act(
    action: Action,
    instructions: &[Instruction],
    next: usize,
    count: u64,
    newest: u64,
    below: u64,
) -> Effect
    ensures { (older : List ℕ) → (result.1 ≤ 2) ×
        (act count action (low_of (drop next instructions.now)) (newest ∷ below ∷ older)
        ≡ left_by result.0 result.1 result.2 (newest ∷ below ∷ older)) }
{
    match action {
        Action::Count => (Some(count), 0, 0),
        Action::Number(number) => (Some(number as u64), 0, 0),
        Action::Wide(high) => {
            let low = instruction_at(instructions, next).number;
            (Some(high as u64 * 4294967296 + low as u64), 0, 1)
        }
        Action::Not => (Some((newest == 0) as u64), 1, 0),
        Action::Binary(operator) => (operator.combined(below, newest), 2, 0),
        Action::Branch(operator, skip) => {
            if operator.needs_right(newest) {
                (Some(newest), 1, 0)
            } else {
                (Some((newest != 0) as u64), 1, skip)
            }
        }
        Action::Choose(skip) if newest == 0 => (Some(below), 2, skip),
        Action::Choose(_) => (Some(below), 2, 0),
        Action::Jump(skip) => (Some(newest), 1, skip),
    }
}
