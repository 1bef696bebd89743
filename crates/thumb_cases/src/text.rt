// The text of an instruction, as GNU's disassembler writes it.

use rt_thumb::{Condition, Instruction, Operation, Special};
use std::alloc::{AllocError, Global};
use std::fmt::{Display, Formatter, Write};

/// A register, by its number.
#[derive(Clone, Copy)]
struct Register(u32);

impl Display for Register {
    fn fmt<W: Write>(&self, f: &mut Formatter<W>) -> std::fmt::Result {
        match self.0 {
            13 => write!(f, "sp"),
            14 => write!(f, "lr"),
            number => write!(f, "r{number}"),
        }
    }
}

/// The name of an operation on two registers.
fn operation(operation: Operation) -> &'static str {
    match operation {
        Operation::And => "ands",
        Operation::ExclusiveOr => "eors",
        Operation::ShiftLeft => "lsls",
        Operation::ShiftRight => "lsrs",
        Operation::AddWithCarry => "adcs",
        Operation::SubtractWithCarry => "sbcs",
        Operation::Negate => "negs",
        Operation::Compare => "cmp",
        Operation::Or => "orrs",
        Operation::Multiply => "muls",
    }
}

/// The name of a condition.
fn condition(condition: Condition) -> &'static str {
    match condition {
        Condition::Equal => "eq",
        Condition::NotEqual => "ne",
        Condition::HigherOrSame => "cs",
        Condition::Lower => "cc",
        Condition::Higher => "hi",
        Condition::LowerOrSame => "ls",
    }
}

/// The name of a special register.
fn special(special: Special) -> &'static str {
    match special {
        Special::PriorityMask => "PRIMASK",
        Special::BasePriority => "BASEPRI",
    }
}

/// An instruction and two registers.
fn two(alloc: Global, name: &str, d: u32, b: u32) -> Result<String, AllocError> {
    format!(in alloc; "{name} {}, {}", Register(d), Register(b))
}

/// An instruction, a register and a number.
fn number(alloc: Global, name: &str, d: u32, n: u32) -> Result<String, AllocError> {
    format!(in alloc; "{name} {}, #{n}", Register(d))
}

/// An instruction and three registers.
fn three(alloc: Global, name: &str, d: u32, a: u32, b: u32) -> Result<String, AllocError> {
    format!(in alloc; "{name} {}, {}, {}", Register(d), Register(a), Register(b))
}

/// A load or a store with an offset.
fn access(alloc: Global, name: &str, t: u32, a: u32, n: u32) -> Result<String, AllocError> {
    format!(in alloc; "{name} {}, [{}, #{n}]", Register(t), Register(a))
}

/// A load or a store of 32 bits with an offset, which is left out where it is 0.
fn wide_access(alloc: Global, name: &str, t: u32, a: u32, n: u32) -> Result<String, AllocError> {
    if n == 0 {
        format!(in alloc; "{name} {}, [{}]", Register(t), Register(a))
    } else {
        access(alloc, name, t, a, n)
    }
}

/// A load or a store with an index.
fn indexed(alloc: Global, name: &str, t: u32, a: u32, m: u32) -> Result<String, AllocError> {
    format!(in alloc;
        "{name} {}, [{}, {}, lsl #2]",
        Register(t),
        Register(a),
        Register(m)
    )
}

/// The text of an instruction without operands.
fn plain(instruction: Instruction) -> &'static str {
    match instruction {
        Instruction::EnableInterrupts => "cpsie i",
        Instruction::DisableInterrupts => "cpsid i",
        Instruction::WaitForInterrupt => "wfi",
        Instruction::NoOperation => "nop",
        Instruction::SynchronizeData => "dsb sy",
        Instruction::SynchronizeInstructions => "isb sy",
        _ => "",
    }
}

/// The text of a load or a store, or of what `plain` has.
fn access_text(alloc: Global, instruction: Instruction) -> Result<String, AllocError> {
    match instruction {
        Instruction::Load(t, a, n) => access(alloc, "ldr", t, a, n),
        Instruction::Store(t, a, n) => access(alloc, "str", t, a, n),
        Instruction::StoreByte(t, a, n) => access(alloc, "strb", t, a, n),
        Instruction::LoadStack(t, n) => access(alloc, "ldr", t, 13, n),
        Instruction::StoreStack(t, n) => access(alloc, "str", t, 13, n),
        Instruction::LoadWide(t, a, n) => wide_access(alloc, "ldr.w", t, a, n),
        Instruction::StoreWide(t, a, n) => wide_access(alloc, "str.w", t, a, n),
        Instruction::LoadIndexed(t, a, m) => indexed(alloc, "ldr.w", t, a, m),
        Instruction::StoreIndexed(t, a, m) => indexed(alloc, "str.w", t, a, m),
        _ => String::from_str(alloc, plain(instruction)),
    }
}

/// The text of a branch or of an instruction on a special register, or what `access_text` has.
fn control_text(alloc: Global, instruction: Instruction) -> Result<String, AllocError> {
    match instruction {
        Instruction::BranchExchange(m) => format!(in alloc; "bx {}", Register(m)),
        Instruction::Branch(x) => format!(in alloc; "b.w #{x}"),
        Instruction::BranchIf(c, x) => format!(in alloc; "b{}.w #{x}", condition(c)),
        Instruction::Call(x) => format!(in alloc; "bl #{x}"),
        Instruction::ReadSpecial(d, s) => {
            format!(in alloc; "mrs {}, {}", Register(d), special(s))
        }
        Instruction::WriteSpecial(s, a) => {
            format!(in alloc; "msr {}, {}", special(s), Register(a))
        }
        _ => access_text(alloc, instruction),
    }
}

/// The text of an instruction, with a branch's displacement in place of its target.
pub fn text(alloc: Global, instruction: Instruction) -> Result<String, AllocError> {
    match instruction {
        Instruction::Move(d, n) => number(alloc, "movs", d, n),
        Instruction::CompareNumber(a, n) => number(alloc, "cmp", a, n),
        Instruction::AddNumber(d, n) => number(alloc, "adds", d, n),
        Instruction::SubtractNumber(d, a, n) => {
            format!(in alloc; "subs {}, {}, #{n}", Register(d), Register(a))
        }
        Instruction::Add(d, a, b) => three(alloc, "adds", d, a, b),
        Instruction::Subtract(d, a, b) => three(alloc, "subs", d, a, b),
        Instruction::Operate(op, d, b) => two(alloc, operation(op), d, b),
        Instruction::AddStackPointer(d) => two(alloc, "add", d, 13),
        Instruction::AddStack(n) => number(alloc, "add", 13, n),
        Instruction::SubtractStack(n) => number(alloc, "sub", 13, n),
        Instruction::MoveWide(d, n) => number(alloc, "movw", d, n),
        Instruction::MoveTop(d, n) => number(alloc, "movt", d, n),
        Instruction::MoveNot(d, n) => number(alloc, "mvn.w", d, n),
        Instruction::AddStackWide(n) => format!(in alloc; "addw sp, sp, #{n}"),
        Instruction::SubtractStackWide(n) => format!(in alloc; "subw sp, sp, #{n}"),
        Instruction::Divide(d, a, b) => three(alloc, "udiv", d, a, b),
        Instruction::MultiplySubtract(d, a, b, c) => {
            format!(in alloc;
                "mls {}, {}, {}, {}",
                Register(d),
                Register(a),
                Register(b),
                Register(c)
            )
        }
        _ => control_text(alloc, instruction),
    }
}
