// Operations on r0 and r1.

ghost use Rattle.std.specs.Prelude.{◌≡◌, ◌++◌, OnOk};
ghost use Rattle.rt_native.specs.Sequences.{calculation, shifting, comparing};

use crate::pieces::push_all;
use rt_ids::{NoMemory, Op};
use rt_thumb::{Instruction, Operation};

/// Appends an operation on r0 and r1, into r0.
#[tactic(auto, unfolding(crate::specs::Sequences::calculation))]
pub(crate) fn push_calculation(out: &mut Vec<Instruction>, op: Op) -> Result<(), NoMemory>
    ensures { OnOk result (out.new.items ≡ out.old.items ++ calculation op) }
{
    match op {
        Op::Add => push_all(out, &[Instruction::Add(0, 0, 1)]),
        Op::Sub => push_all(out, &[Instruction::Subtract(0, 0, 1)]),
        Op::Mul => push_all(out, &[Instruction::Operate(Operation::Multiply, 0, 1)]),
        Op::Div => push_all(out, &[Instruction::Divide(0, 0, 1)]),
        Op::Rem => {
            let quotient = Instruction::Divide(2, 0, 1);
            push_all(out, &[quotient, Instruction::MultiplySubtract(0, 2, 1, 0)])
        }
        Op::And => push_all(out, &[Instruction::Operate(Operation::And, 0, 1)]),
        Op::Or => push_all(out, &[Instruction::Operate(Operation::Or, 0, 1)]),
        Op::Xor => push_all(out, &[Instruction::Operate(Operation::ExclusiveOr, 0, 1)]),
        Op::Shl => push_shift(out, Operation::ShiftLeft),
        Op::Shr => push_shift(out, Operation::ShiftRight),
        Op::Eq => {
            let negate = Instruction::Operate(Operation::Negate, 1, 0);
            let answer = Instruction::Operate(Operation::AddWithCarry, 0, 1);
            push_all(out, &[Instruction::Subtract(0, 0, 1), negate, answer])
        }
        Op::Ne => {
            let less = Instruction::SubtractNumber(1, 0, 1);
            let answer = Instruction::Operate(Operation::SubtractWithCarry, 0, 1);
            push_all(out, &[Instruction::Subtract(0, 0, 1), less, answer])
        }
        Op::Lt => push_comparison(out, 0, 1, Instruction::Operate(Operation::Negate, 0, 0)),
        Op::Le => push_comparison(out, 1, 0, Instruction::AddNumber(0, 1)),
        Op::Gt => push_comparison(out, 1, 0, Instruction::Operate(Operation::Negate, 0, 0)),
        Op::Ge => push_comparison(out, 0, 1, Instruction::AddNumber(0, 1)),
    }
}

/// Appends a shift, which gives 0 where it is by 32 or more.
#[tactic(auto, unfolding(crate::specs::Sequences::shifting))]
fn push_shift(out: &mut Vec<Instruction>, shift: Operation) -> Result<(), NoMemory>
    ensures { OnOk result (out.new.items ≡ out.old.items ++ shifting shift) }
{
    let bits = Instruction::Operate(Operation::SubtractWithCarry, 2, 2);
    let shifted = Instruction::Operate(shift, 0, 1);
    let kept = Instruction::Operate(Operation::And, 0, 2);
    push_all(
        out,
        &[Instruction::CompareNumber(1, 32), bits, shifted, kept],
    )
}

/// Appends a comparison of two registers, whose borrow becomes the answer by a last instruction.
#[tactic(auto, unfolding(crate::specs::Sequences::comparing))]
fn push_comparison(
    out: &mut Vec<Instruction>,
    a: u32,
    b: u32,
    last: Instruction,
) -> Result<(), NoMemory>
    ensures { OnOk result (out.new.items ≡ out.old.items ++ comparing a b last) }
{
    let compare = Instruction::Operate(Operation::Compare, a, b);
    let borrow = Instruction::Operate(Operation::SubtractWithCarry, 0, 0);
    push_all(out, &[compare, borrow, last])
}
