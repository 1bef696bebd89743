// The instructions of ARMv7-M that native code uses.

/// What `Operate` does with its two registers.
#[derive(Clone, Copy)]
pub enum Operation {
    /// ANDS: the bits of both.
    And,
    /// EORS: the bits of one alone.
    ExclusiveOr,
    /// LSLS: the first, shifted to the left by the lowest byte of the second.
    ShiftLeft,
    /// LSRS: the first, shifted to the right by the lowest byte of the second.
    ShiftRight,
    /// ADCS: the sum of both and the carry.
    AddWithCarry,
    /// SBCS: the first less the second, and less 1 where the carry is clear.
    SubtractWithCarry,
    /// RSBS: 0 less the second.
    Negate,
    /// CMP: the flags of the first less the second; no register changes.
    Compare,
    /// ORRS: the bits of either.
    Or,
    /// MULS: the product.
    Multiply,
}

/// When a conditional branch is taken.
#[derive(Clone, Copy)]
pub enum Condition {
    /// EQ: the last comparison was of equal numbers.
    Equal,
    /// NE: of numbers that differ.
    NotEqual,
    /// HS: of a number with the same or a lower one, without signs. Its other name is CS: the carry is set.
    HigherOrSame,
    /// LO: of a number with a higher one, without signs. Its other name is CC: the carry is clear.
    Lower,
    /// HI: of a number with a lower one, without signs.
    Higher,
    /// LS: of a number with the same or a higher one, without signs.
    LowerOrSame,
}

/// A special register that masks interrupts.
#[derive(Clone, Copy)]
pub enum Special {
    /// PRIMASK: whether all interrupts are masked.
    PriorityMask,
    /// BASEPRI: the priority value from which interrupts are masked; 0 masks none.
    BasePriority,
}

/// An instruction. Registers are numbers, from 0: 13 is the stack pointer, 14 the link register. Offsets and
/// displacements are bytes. Which numbers can be encoded is `IsEncodable`.
#[derive(Clone, Copy)]
pub enum Instruction {
    /// `MOVS D, #N`: register D becomes the number N.
    Move(u32, u32),
    /// `CMP A, #N`: the flags of register A less the number N.
    CompareNumber(u32, u32),
    /// `ADDS D, #N`: register D grows by the number N.
    AddNumber(u32, u32),
    /// `SUBS D, A, #N`: register D becomes register A less the number N.
    SubtractNumber(u32, u32, u32),
    /// `ADDS D, A, B`: register D becomes the sum of registers A and B.
    Add(u32, u32, u32),
    /// `SUBS D, A, B`: register D becomes register A less register B.
    Subtract(u32, u32, u32),
    /// `OP D, B`: register D becomes what the operation gives on it and register B.
    Operate(Operation, u32, u32),
    /// `ADD D, SP`: register D grows by the stack pointer.
    AddStackPointer(u32),
    /// `BX M`: goes to the address in register M; to what EXC_RETURN says where it is such a value.
    BranchExchange(u32),
    /// `LDR T, [A, #N]`: register T becomes the word at register A + N.
    Load(u32, u32, u32),
    /// `STR T, [A, #N]`: the word at register A + N becomes register T.
    Store(u32, u32, u32),
    /// `STRB T, [A, #N]`: the byte at register A + N becomes the lowest byte of register T.
    StoreByte(u32, u32, u32),
    /// `LDR T, [SP, #N]`: register T becomes the word at SP + N.
    LoadStack(u32, u32),
    /// `STR T, [SP, #N]`: the word at SP + N becomes register T.
    StoreStack(u32, u32),
    /// `ADD SP, #N`: the stack pointer grows by N.
    AddStack(u32),
    /// `SUB SP, #N`: the stack pointer falls by N.
    SubtractStack(u32),
    /// `CPSIE i`: PRIMASK becomes 0.
    EnableInterrupts,
    /// `CPSID i`: PRIMASK becomes 1.
    DisableInterrupts,
    /// `WFI`: waits for an interrupt.
    WaitForInterrupt,
    /// `NOP`: does nothing.
    NoOperation,
    /// `MOVW D, #N`: register D becomes the number N.
    MoveWide(u32, u32),
    /// `MOVT D, #N`: the upper half of register D becomes the number N.
    MoveTop(u32, u32),
    /// `MVN D, #N`: register D becomes the complement of the number N.
    MoveNot(u32, u32),
    /// `ADDW SP, SP, #N`: the stack pointer grows by N.
    AddStackWide(u32),
    /// `SUBW SP, SP, #N`: the stack pointer falls by N.
    SubtractStackWide(u32),
    /// `LDR.W T, [A, #N]`: register T becomes the word at register A + N.
    LoadWide(u32, u32, u32),
    /// `STR.W T, [A, #N]`: the word at register A + N becomes register T.
    StoreWide(u32, u32, u32),
    /// `LDR.W T, [A, M, LSL #2]`: register T becomes the word at register A + 4 * register M.
    LoadIndexed(u32, u32, u32),
    /// `STR.W T, [A, M, LSL #2]`: the word at register A + 4 * register M becomes register T.
    StoreIndexed(u32, u32, u32),
    /// `UDIV D, A, B`: register D becomes the quotient of registers A and B.
    Divide(u32, u32, u32),
    /// `MLS D, A, B, C`: register D becomes register C less the product of registers A and B.
    MultiplySubtract(u32, u32, u32, u32),
    /// `MRS D, S`: register D becomes the special register.
    ReadSpecial(u32, Special),
    /// `MSR S, A`: the special register becomes register A.
    WriteSpecial(Special, u32),
    /// `DSB SY`: waits until all accesses are done.
    SynchronizeData,
    /// `ISB SY`: what follows is fetched anew.
    SynchronizeInstructions,
    /// `B.W`: goes on at the address of this instruction + 4 + the displacement, a word that wraps.
    Branch(u32),
    /// `Bcc.W`: the same, where the condition holds.
    BranchIf(Condition, u32),
    /// `BL`: the same as `Branch`, and the link register becomes the address behind this instruction, with bit 0 set.
    Call(u32),
}

/// The halfwords of one instruction, in the order of their addresses.
#[derive(Clone, Copy, PartialEq, Eq)]
pub enum Halfwords {
    /// An instruction of 16 bits.
    Short(u16),
    /// An instruction of 32 bits: its first halfword, which is the upper one in the manual's pictures, and its second.
    Wide(u16, u16),
}
