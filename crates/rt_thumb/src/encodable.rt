// Tells which instructions can be encoded.

ghost use Rattle.std.specs.Prelude.{◌-◌, ◌%◌, ◌<◌, ◌≤◌, ◌↔◌, IsTrue};
ghost use Rattle.rt_thumb.specs.Instruction.{IsDisplacement, IsEncodable, IsGeneral, IsLow, IsTransferred};
ghost use Rattle.rt_thumb.specs.Instruction.{IsWordOffset};

use crate::instruction::Instruction;

/// Whether encodings of 16 bits reach a register.
fn is_low(register: u32) -> bool
    ensures { IsTrue result ↔ IsLow register }
{
    register < 8
}

/// Whether every encoding of 32 bits takes a register.
fn is_general(register: u32) -> bool
    ensures { IsTrue result ↔ IsGeneral register }
{
    register < 13
}

/// Whether wide loads and stores take a register.
fn is_transferred(register: u32) -> bool
    ensures { IsTrue result ↔ IsTransferred register }
{
    is_general(register) || register == 14
}

/// Whether an offset is one of words, below a limit.
fn is_word_offset(offset: u32, limit: u32) -> bool
    ensures { IsTrue result ↔ IsWordOffset limit offset }
{
    offset % 4 == 0 && offset < limit
}

/// Whether a displacement is even and less than a reach away.
fn is_displacement(displacement: u32, bits: u32) -> bool
    requires some_bits { 0 < bits }
    requires bits_fit { bits ≤ 32 }
    ensures { IsTrue result ↔ IsDisplacement bits displacement }
{
    let reach = 1 << (bits - 1);
    displacement % 2 == 0 && (displacement < reach || displacement > u32::MAX - reach)
}

/// Whether an instruction can be encoded: each of its registers and numbers is in its range.
pub fn is_encodable(instruction: Instruction) -> bool
    ensures { IsTrue result ↔ IsEncodable instruction }
{
    match instruction {
        Instruction::Move(r, n) | Instruction::CompareNumber(r, n) | Instruction::AddNumber(r, n) =>
            is_low(r) && n < 0x100,
        Instruction::SubtractNumber(d, a, n) => is_low(d) && is_low(a) && n < 8,
        Instruction::Add(d, a, b) | Instruction::Subtract(d, a, b) => is_low(d)
            && is_low(a)
            && is_low(b),
        Instruction::Operate(_, d, b) => is_low(d) && is_low(b),
        Instruction::AddStackPointer(d) => is_low(d),
        Instruction::BranchExchange(m) => m < 15,
        Instruction::Load(t, a, n) | Instruction::Store(t, a, n) => is_low(t)
            && is_low(a)
            && is_word_offset(n, 0x80),
        Instruction::StoreByte(t, a, n) => is_low(t) && is_low(a) && n < 0x20,
        Instruction::LoadStack(t, n) | Instruction::StoreStack(t, n) => is_low(t)
            && is_word_offset(n, 0x400),
        Instruction::AddStack(n) | Instruction::SubtractStack(n) => is_word_offset(n, 0x200),
        Instruction::MoveWide(d, n) | Instruction::MoveTop(d, n) => is_general(d) && n < 0x1_0000,
        Instruction::MoveNot(d, n) => is_general(d) && n < 0x100,
        Instruction::AddStackWide(n) | Instruction::SubtractStackWide(n) => is_word_offset(
            n, 0x1000,
        ),
        Instruction::LoadWide(t, a, n) | Instruction::StoreWide(t, a, n) => is_transferred(t)
            && a < 14
            && n < 0x1000,
        Instruction::LoadIndexed(t, a, m) | Instruction::StoreIndexed(t, a, m) => is_general(t)
            && a < 14
            && is_general(m),
        Instruction::Divide(d, a, b) => is_general(d) && is_general(a) && is_general(b),
        Instruction::MultiplySubtract(d, a, b, c) => is_general(d)
            && is_general(a)
            && is_general(b)
            && is_general(c),
        Instruction::ReadSpecial(r, _) | Instruction::WriteSpecial(_, r) => is_general(r),
        Instruction::Branch(x) | Instruction::Call(x) => is_displacement(x, 25),
        Instruction::BranchIf(_, x) => is_displacement(x, 21),
        Instruction::EnableInterrupts
        | Instruction::DisableInterrupts
        | Instruction::WaitForInterrupt
        | Instruction::NoOperation
        | Instruction::SynchronizeData
        | Instruction::SynchronizeInstructions => true,
    }
}
