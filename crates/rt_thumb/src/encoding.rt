// Encodes instructions.

ghost use Rattle.std.specs.Prelude.{◌≡◌, ◌+◌, ◌*◌, ◌%◌, ◌^◌, ◌<◌};
ghost use Rattle.rt_thumb.specs.Encoding.{encode as encoded, operation_bits, condition_bits, special_bits, joined_bit};
ghost use Rattle.rt_thumb.specs.Encoding.{field as field_of, with_base, with_number as number_form};
ghost use Rattle.rt_thumb.specs.Encoding.{far_branch as far_form, near_branch as near_form, size as size_of};
ghost use Rattle.rt_thumb.specs.Instruction.{IsEncodable};

use crate::instruction::{Condition, Halfwords, Instruction, Operation, Special};

/// Bits 9 to 6 of an operation on two registers.
fn operation_number(operation: Operation) -> u32
    ensures number { result ≡ operation_bits operation }
    ensures fits { result < 2 ^ 4 }
{
    match operation {
        Operation::And => 0,
        Operation::ExclusiveOr => 1,
        Operation::ShiftLeft => 2,
        Operation::ShiftRight => 3,
        Operation::AddWithCarry => 5,
        Operation::SubtractWithCarry => 6,
        Operation::Negate => 9,
        Operation::Compare => 10,
        Operation::Or => 12,
        Operation::Multiply => 13,
    }
}

/// The four bits of a condition.
fn condition_number(condition: Condition) -> u32
    ensures number { result ≡ condition_bits condition }
    ensures fits { result < 14 }
{
    match condition {
        Condition::Equal => 0,
        Condition::NotEqual => 1,
        Condition::HigherOrSame => 2,
        Condition::Lower => 3,
        Condition::Higher => 8,
        Condition::LowerOrSame => 9,
    }
}

/// The number of a special register.
fn special_number(special: Special) -> u32
    ensures number { result ≡ special_bits special }
    ensures fits { result < 2 ^ 8 }
{
    match special {
        Special::PriorityMask => 16,
        Special::BasePriority => 17,
    }
}

/// A field of a number: so many bits from a lowest one on.
pub(crate) fn field(number: u32, lowest: u32, width: u32) -> u32
    requires lowest_fits { lowest < 32 }
    requires width_fits { width < 32 }
    ensures field { result ≡ field_of number lowest width }
    ensures fits { result < 2 ^ width }
{
    (number >> lowest) % (1 << width)
}

/// Three fields below an opcode: bits 8 to 6, 5 to 3 and 2 to 0.
fn three(opcode: u32, high: u32, middle: u32, low: u32) -> Halfwords
    requires opcode_fits { opcode < 2 ^ 5 }
    requires high_fits { high < 2 ^ 5 }
    requires middle_fits { middle < 2 ^ 3 }
    requires low_fits { low < 2 ^ 3 }
    ensures { result ≡ Halfwords.Short (opcode * 2 ^ 11 + high * 2 ^ 6 + middle * 2 ^ 3 + low) }
{
    Halfwords::Short(((opcode << 11) + (high << 6) + (middle << 3) + low) as u16)
}

/// Two fields below an opcode: bits 10 to 8 and 7 to 0.
fn two(opcode: u32, high: u32, low: u32) -> Halfwords
    requires opcode_fits { opcode < 2 ^ 5 }
    requires high_fits { high < 2 ^ 3 }
    requires low_fits { low < 2 ^ 8 }
    ensures { result ≡ Halfwords.Short (opcode * 2 ^ 11 + high * 2 ^ 8 + low) }
{
    Halfwords::Short(((opcode << 11) + (high << 8) + low) as u16)
}

/// Twelve bits and a register, and a second halfword.
fn wide(opcode: u32, register: u32, second: u32) -> Halfwords
    requires opcode_fits { opcode < 2 ^ 12 }
    requires register_fits { register < 2 ^ 4 }
    requires second_fits { second < 2 ^ 16 }
    ensures { result ≡ with_base opcode register second }
{
    Halfwords::Wide(((opcode << 4) + register) as u16, second as u16)
}

/// A form with a number of 12 bits in three fields, or of 16 bits, whose highest four are given.
fn with_number(opcode: u32, high: u32, register: u32, number: u32) -> Halfwords
    requires opcode_fits { opcode < 2 ^ 6 }
    requires high_fits { high < 2 ^ 4 }
    requires register_fits { register < 2 ^ 4 }
    ensures { result ≡ number_form opcode high register number }
{
    let first = 0xF000 + (field(number, 11, 1) << 10) + (opcode << 4) + high;
    let second = (field(number, 8, 3) << 12) + (register << 8) + number % 256;
    Halfwords::Wide(first as u16, second as u16)
}

/// J1 or J2: 1 where a bit of the displacement is its sign.
fn joined(displacement: u32, bit: u32) -> u32
    requires bit_fits { bit < 32 }
    ensures joined { result ≡ joined_bit displacement bit }
    ensures fits { result < 2 }
{
    if field(displacement, bit, 1) == displacement >> 31 {
        1
    } else {
        0
    }
}

/// A branch of 25 bits, with bits 15 and 14 of its second halfword.
fn far_branch(top: u32, displacement: u32) -> Halfwords
    requires top_fits { top < 4 }
    ensures { result ≡ far_form top displacement }
{
    let first = 0xF000 + ((displacement >> 31) << 10) + field(displacement, 12, 10);
    let joins = (joined(displacement, 23) << 13) + (joined(displacement, 22) << 11);
    let second = (top << 14) + 0x1000 + joins + field(displacement, 1, 11);
    Halfwords::Wide(first as u16, second as u16)
}

/// A branch of 21 bits on a condition.
fn near_branch(condition: u32, displacement: u32) -> Halfwords
    requires condition_fits { condition < 14 }
    ensures { result ≡ near_form condition displacement }
{
    let first = 0xF000
        + ((displacement >> 31) << 10)
        + (condition << 6)
        + field(displacement, 12, 6);
    let joins = (field(displacement, 18, 1) << 13) + (field(displacement, 19, 1) << 11);
    let second = 0x8000 + joins + field(displacement, 1, 11);
    Halfwords::Wide(first as u16, second as u16)
}

/// The halfwords of an instruction.
pub fn encode(instruction: Instruction) -> Halfwords
    requires { IsEncodable instruction }
    ensures { result ≡ encoded instruction }
{
    match instruction {
        Instruction::Move(d, n) => two(4, d, n),
        Instruction::CompareNumber(a, n) => two(5, a, n),
        Instruction::AddNumber(d, n) => two(6, d, n),
        Instruction::SubtractNumber(d, a, n) => three(3, 24 + n, a, d),
        Instruction::Add(d, a, b) => three(3, b, a, d),
        Instruction::Subtract(d, a, b) => three(3, 8 + b, a, d),
        Instruction::Operate(op, d, b) => three(8, operation_number(op), b, d),
        Instruction::AddStackPointer(d) => two(8, 4, 104 + d),
        Instruction::BranchExchange(m) => two(8, 7, m << 3),
        Instruction::Load(t, a, n) => three(13, n >> 2, a, t),
        Instruction::Store(t, a, n) => three(12, n >> 2, a, t),
        Instruction::StoreByte(t, a, n) => three(14, n, a, t),
        Instruction::LoadStack(t, n) => two(19, t, n >> 2),
        Instruction::StoreStack(t, n) => two(18, t, n >> 2),
        Instruction::AddStack(n) => two(22, 0, n >> 2),
        Instruction::SubtractStack(n) => two(22, 0, 128 + (n >> 2)),
        Instruction::EnableInterrupts => Halfwords::Short(0xB662),
        Instruction::DisableInterrupts => Halfwords::Short(0xB672),
        Instruction::WaitForInterrupt => Halfwords::Short(0xBF30),
        Instruction::NoOperation => Halfwords::Short(0xBF00),
        Instruction::MoveWide(d, n) => with_number(36, n >> 12, d, n),
        Instruction::MoveTop(d, n) => with_number(44, n >> 12, d, n),
        Instruction::MoveNot(d, n) => wide(0xF06, 15, (d << 8) + n),
        Instruction::AddStackWide(n) => with_number(32, 13, 13, n),
        Instruction::SubtractStackWide(n) => with_number(42, 13, 13, n),
        Instruction::LoadWide(t, a, n) => wide(0xF8D, a, (t << 12) + n),
        Instruction::StoreWide(t, a, n) => wide(0xF8C, a, (t << 12) + n),
        Instruction::LoadIndexed(t, a, m) => wide(0xF85, a, (t << 12) + 0x20 + m),
        Instruction::StoreIndexed(t, a, m) => wide(0xF84, a, (t << 12) + 0x20 + m),
        Instruction::Divide(d, a, b) => wide(0xFBB, a, 0xF0F0 + (d << 8) + b),
        Instruction::MultiplySubtract(d, a, b, c) => wide(
            0xFB0,
            a,
            (c << 12) + (d << 8) + 0x10 + b,
        ),
        Instruction::ReadSpecial(d, special) => wide(
            0xF3E,
            15,
            0x8000 + (d << 8) + special_number(special),
        ),
        Instruction::WriteSpecial(special, a) => wide(0xF38, a, 0x8800 + special_number(special)),
        Instruction::SynchronizeData => wide(0xF3B, 15, 0x8F4F),
        Instruction::SynchronizeInstructions => wide(0xF3B, 15, 0x8F6F),
        Instruction::Branch(displacement) => far_branch(2, displacement),
        Instruction::BranchIf(condition, displacement) => near_branch(
            condition_number(condition),
            displacement,
        ),
        Instruction::Call(displacement) => far_branch(3, displacement),
    }
}

/// How many bytes the encoding of an instruction takes: 2 or 4, whatever its registers and numbers are.
pub fn size(instruction: Instruction) -> u32
    ensures { result ≡ size_of (encoded instruction) }
{
    match instruction {
        Instruction::MoveWide(_, _)
        | Instruction::MoveTop(_, _)
        | Instruction::MoveNot(_, _)
        | Instruction::AddStackWide(_)
        | Instruction::SubtractStackWide(_)
        | Instruction::LoadWide(_, _, _)
        | Instruction::StoreWide(_, _, _)
        | Instruction::LoadIndexed(_, _, _)
        | Instruction::StoreIndexed(_, _, _)
        | Instruction::Divide(_, _, _)
        | Instruction::MultiplySubtract(_, _, _, _)
        | Instruction::ReadSpecial(_, _)
        | Instruction::WriteSpecial(_, _)
        | Instruction::SynchronizeData
        | Instruction::SynchronizeInstructions
        | Instruction::Branch(_)
        | Instruction::BranchIf(_, _)
        | Instruction::Call(_) => 4,
        _ => 2,
    }
}
