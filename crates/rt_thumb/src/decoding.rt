// Decodes instructions.

ghost use Rattle.std.specs.Prelude.{◌≡◌, ◌+◌, ◌*◌, ◌/◌, ◌^◌, ◌<◌};
ghost use Rattle.rt_thumb.specs.Encoding.{field as field_of};
ghost use Rattle.rt_thumb.specs.Inside.Reading.{operation_of as operation_named, sum_of as sum_named};
ghost use Rattle.rt_thumb.specs.Inside.Reading.{register_of as register_named, data_of as data_named};
ghost use Rattle.rt_thumb.specs.Inside.Reading.{other_of as other_named, short_of as short_named, AreHalfwords};
ghost use Rattle.rt_thumb.specs.Inside.Reading.{read as read_of, equal_bit as equal_named};
ghost use Rattle.rt_thumb.specs.Inside.Reading.{twelve_bits as twelve_named, number_of as number_named};
ghost use Rattle.rt_thumb.specs.Inside.Reading.{general_of as general_named, special_of as special_named};
ghost use Rattle.rt_thumb.specs.Inside.Reading.{system_of as system_named, far_displacement as far_named};
ghost use Rattle.rt_thumb.specs.Inside.Reading.{near_displacement as near_named, condition_of as condition_named};
ghost use Rattle.rt_thumb.specs.Inside.Reading.{control_of as control_named, wide_of as wide_named};
ghost use Rattle.rt_thumb.specs.Decoding.{IsDecoding};

use crate::encodable::is_encodable;
use crate::encoding::field;
use crate::instruction::{Condition, Halfwords, Instruction, Operation, Special};

/// An operation on two registers, by bits 9 to 6.
fn operation_of(bits: u32) -> Option<Operation>
    ensures { result ≡ operation_named bits }
{
    match bits {
        0 => Some(Operation::And),
        1 => Some(Operation::ExclusiveOr),
        2 => Some(Operation::ShiftLeft),
        3 => Some(Operation::ShiftRight),
        5 => Some(Operation::AddWithCarry),
        6 => Some(Operation::SubtractWithCarry),
        9 => Some(Operation::Negate),
        10 => Some(Operation::Compare),
        12 => Some(Operation::Or),
        13 => Some(Operation::Multiply),
        _ => None,
    }
}

/// Sums and differences of registers and small numbers.
fn sum_of(halfword: u32) -> Option<Instruction>
    ensures { result ≡ sum_named (field_of halfword 9 2) halfword }
{
    let (d, a, b) = (
        field(halfword, 0, 3),
        field(halfword, 3, 3),
        field(halfword, 6, 3),
    );
    match field(halfword, 9, 2) {
        0 => Some(Instruction::Add(d, a, b)),
        1 => Some(Instruction::Subtract(d, a, b)),
        3 => Some(Instruction::SubtractNumber(d, a, b)),
        _ => None,
    }
}

/// Special data instructions, and branch and exchange.
fn register_of(halfword: u32) -> Option<Instruction>
    ensures { result ≡ register_named (halfword / 2 ^ 3) halfword }
{
    let high = halfword >> 3;
    if high == 2189 {
        Some(Instruction::AddStackPointer(field(halfword, 0, 3)))
    } else if high >> 4 == 142 && field(halfword, 0, 3) == 0 {
        Some(Instruction::BranchExchange(field(high, 0, 4)))
    } else {
        None
    }
}

/// Operations on two registers, and what `register_of` has.
fn data_of(halfword: u32) -> Option<Instruction>
    ensures { result ≡ data_named (halfword / 2 ^ 10) halfword }
{
    if halfword >> 10 == 16 {
        let operation = operation_of(field(halfword, 6, 4))?;
        Some(Instruction::Operate(operation, field(halfword, 0, 3), field(halfword, 3, 3)))
    } else {
        register_of(halfword)
    }
}

/// Miscellaneous instructions.
fn other_of(halfword: u32) -> Option<Instruction>
    ensures { result ≡ other_named (halfword / 2 ^ 7) halfword }
{
    match halfword >> 7 {
        352 => Some(Instruction::AddStack(field(halfword, 0, 7) * 4)),
        353 => Some(Instruction::SubtractStack(field(halfword, 0, 7) * 4)),
        _ => match halfword {
            0xB662 => Some(Instruction::EnableInterrupts),
            0xB672 => Some(Instruction::DisableInterrupts),
            _ => None,
        },
    }
}

/// The instruction of 16 bits that a halfword is.
fn read_short(halfword: u16) -> Option<Instruction>
    ensures { result ≡ short_named (halfword / 2 ^ 11) halfword }
{
    let halfword = halfword as u32;
    let (d, n) = (field(halfword, 8, 3), field(halfword, 0, 8));
    let (t, a, m) = (
        field(halfword, 0, 3),
        field(halfword, 3, 3),
        field(halfword, 6, 5),
    );
    match halfword >> 11 {
        3 => sum_of(halfword),
        4 => Some(Instruction::Move(d, n)),
        5 => Some(Instruction::CompareNumber(d, n)),
        6 => Some(Instruction::AddNumber(d, n)),
        8 => data_of(halfword),
        12 => Some(Instruction::Store(t, a, m * 4)),
        13 => Some(Instruction::Load(t, a, m * 4)),
        14 => Some(Instruction::StoreByte(t, a, m)),
        18 => Some(Instruction::StoreStack(d, n * 4)),
        19 => Some(Instruction::LoadStack(d, n * 4)),
        22 => other_of(halfword),
        _ => match halfword {
            0xBF00 => Some(Instruction::NoOperation),
            0xBF30 => Some(Instruction::WaitForInterrupt),
            _ => None,
        },
    }
}

/// The number of 12 bits in the fields of a form with a number.
fn twelve_bits(first: u32, second: u32) -> u32
    ensures number { result ≡ twelve_named first second }
    ensures fits { result < 2 ^ 12 }
{
    (field(first, 10, 1) << 11) + (field(second, 12, 3) << 8) + field(second, 0, 8)
}

/// Data processing with a number.
fn number_of(first: u32, second: u32) -> Option<Instruction>
    ensures { result ≡ number_named (field_of first 4 6) first second }
{
    let op = field(first, 4, 6);
    let d = field(second, 8, 4);
    if op == 36 {
        Some(Instruction::MoveWide(d, (field(first, 0, 4) << 12) + twelve_bits(first, second)))
    } else if op == 44 {
        Some(Instruction::MoveTop(d, (field(first, 0, 4) << 12) + twelve_bits(first, second)))
    } else if first == 0xF06F && second >> 12 == 0 {
        Some(Instruction::MoveNot(d, field(second, 0, 8)))
    } else if field(first, 0, 4) == 13 && d == 13 {
        match op {
            32 => Some(Instruction::AddStackWide(twelve_bits(first, second))),
            42 => Some(Instruction::SubtractStackWide(twelve_bits(first, second))),
            _ => None,
        }
    } else {
        None
    }
}

/// Loads, stores, products and quotients.
fn general_of(first: u32, second: u32) -> Option<Instruction>
    ensures { result ≡ general_named (first / 2 ^ 4) first second }
{
    let twelve = first >> 4;
    let (t, d) = (second >> 12, field(second, 8, 4));
    let (a, m) = (field(first, 0, 4), field(second, 0, 4));
    if twelve == 0xF8D {
        Some(Instruction::LoadWide(t, a, field(second, 0, 12)))
    } else if twelve == 0xF8C {
        Some(Instruction::StoreWide(t, a, field(second, 0, 12)))
    } else if twelve == 0xF85 && field(second, 4, 8) == 2 {
        Some(Instruction::LoadIndexed(t, a, m))
    } else if twelve == 0xF84 && field(second, 4, 8) == 2 {
        Some(Instruction::StoreIndexed(t, a, m))
    } else if twelve == 0xFBB && (t == 15 && field(second, 4, 4) == 15) {
        Some(Instruction::Divide(d, a, m))
    } else if twelve == 0xFB0 && field(second, 4, 4) == 1 {
        Some(Instruction::MultiplySubtract(d, a, m, t))
    } else {
        None
    }
}

/// A special register, by its number.
fn special_of(bits: u32) -> Option<Special>
    ensures { result ≡ special_named bits }
{
    match bits {
        16 => Some(Special::PriorityMask),
        17 => Some(Special::BasePriority),
        _ => None,
    }
}

/// Miscellaneous control instructions, and those of special registers.
fn system_of(first: u32, second: u32) -> Option<Instruction>
    ensures { result ≡ system_named (first / 2 ^ 4) first second }
{
    if first == 0xF3EF && second >> 12 == 8 {
        let special = special_of(field(second, 0, 8))?;
        Some(Instruction::ReadSpecial(field(second, 8, 4), special))
    } else if first >> 4 == 0xF38 && field(second, 8, 8) == 0x88 {
        let special = special_of(field(second, 0, 8))?;
        Some(Instruction::WriteSpecial(special, field(first, 0, 4)))
    } else if first == 0xF3BF && second == 0x8F4F {
        Some(Instruction::SynchronizeData)
    } else if first == 0xF3BF && second == 0x8F6F {
        Some(Instruction::SynchronizeInstructions)
    } else {
        None
    }
}

/// I1 or I2 of a branch: 1 where J and S are the same.
fn equal_bit(joined: u32, sign: u32) -> u32
    ensures bit { result ≡ equal_named joined sign }
    ensures fits { result < 2 }
{
    if joined == sign { 1 } else { 0 }
}

/// The displacement of a branch of 25 bits.
fn far_displacement(first: u32, second: u32) -> u32
    ensures { result ≡ far_named first second }
{
    let sign = field(first, 10, 1);
    let high = (equal_bit(field(second, 13, 1), sign) << 23)
        + (equal_bit(field(second, 11, 1), sign) << 22);
    sign * 0xFF00_0000 + high + (field(first, 0, 10) << 12) + field(second, 0, 11) * 2
}

/// The displacement of a branch of 21 bits.
fn near_displacement(first: u32, second: u32) -> u32
    ensures { result ≡ near_named first second }
{
    let high = (field(second, 11, 1) << 19) + (field(second, 13, 1) << 18);
    field(first, 10, 1) * 0xFFF0_0000 + high + (field(first, 0, 6) << 12) + field(second, 0, 11) * 2
}

/// A condition, by its four bits.
fn condition_of(bits: u32) -> Option<Condition>
    ensures { result ≡ condition_named bits }
{
    match bits {
        0 => Some(Condition::Equal),
        1 => Some(Condition::NotEqual),
        2 => Some(Condition::HigherOrSame),
        3 => Some(Condition::Lower),
        8 => Some(Condition::Higher),
        9 => Some(Condition::LowerOrSame),
        _ => None,
    }
}

/// Branches and control.
fn control_of(first: u32, second: u32) -> Option<Instruction>
    ensures { result ≡ control_named (field_of second 14 1) (field_of second 12 1) first second }
{
    let link = field(second, 14, 1);
    if field(second, 12, 1) == 1 {
        let displacement = far_displacement(first, second);
        Some(if link == 1 {
            Instruction::Call(displacement)
        } else {
            Instruction::Branch(displacement)
        })
    } else if link == 1 {
        None
    } else if field(first, 7, 3) == 7 {
        system_of(first, second)
    } else {
        let condition = condition_of(field(first, 6, 4))?;
        Some(Instruction::BranchIf(condition, near_displacement(first, second)))
    }
}

/// The instruction of 32 bits that two halfwords are.
fn read_wide(first: u32, second: u32) -> Option<Instruction>
    ensures { result ≡ wide_named (first / 2 ^ 11) first second }
{
    match first >> 11 {
        31 => general_of(first, second),
        30 => if second >> 15 == 0 {
            number_of(first, second)
        } else {
            control_of(first, second)
        },
        _ => None,
    }
}

/// What the opcodes and fields of halfwords say.
fn read(halfwords: Halfwords) -> Option<Instruction>
    ensures read { result ≡ read_of halfwords }
    ensures fits { AreHalfwords halfwords }
{
    match halfwords {
        Halfwords::Short(halfword) => read_short(halfword),
        Halfwords::Wide(first, second) => read_wide(first as u32, second as u32),
    }
}

/// The instruction that halfwords are the encoding of; `None` where there is none.
pub fn decode(halfwords: Halfwords) -> Option<Instruction>
    ensures { IsDecoding halfwords result }
{
    let instruction = read(halfwords)?;
    if is_encodable(instruction) {
        Some(instruction)
    } else {
        None
    }
}
