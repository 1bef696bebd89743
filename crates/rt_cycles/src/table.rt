// The manual's table of cycles.

ghost use Rattle.std.specs.Prelude.{◌≡◌};
ghost use Rattle.rt_cycles.specs.Table as spec;

use rt_thumb::{Instruction, Operation};

/// A row of the table of instructions in the Cortex-M4 Technical Reference Manual, section 3.3.1.
#[derive(Clone, Copy)]
pub enum TableRow {
    /// MOV, MOVW, MOVT: 1.
    Move,
    /// ADD, ADC: 1.
    Add,
    /// SUB, SBC, RSB: 1.
    Subtract,
    /// MUL: 1.
    Multiply,
    /// MLS: 2.
    MultiplySubtract,
    /// UDIV: 2 to 12.
    Divide,
    /// CMP: 1.
    Compare,
    /// AND, ORR, EOR, MVN: 1.
    Logical,
    /// LSL, LSR: 1.
    Shift,
    /// LDR: 2.
    Load,
    /// STR, STRB: 2.
    Store,
    /// B, BL, BX: 1 + P; 1 where a condition does not hold.
    Branch,
    /// CPSID, CPSIE, MRS, MSR: 1 or 2.
    StateChange,
    /// WFI: 1 + W, the cycles asleep.
    Wait,
    /// NOP: 1.
    NoOperation,
    /// ISB, DSB: 1 + B.
    Barrier,
}

/// P: a refill of the pipeline, at most.
const REFILL: u128 = 3;

/// B: what a barrier waits.
const BARRIER: u128 = REFILL;

/// An exception entry.
pub(crate) const ENTRY: u128 = 12;

/// An exception return.
pub(crate) const RETURN: u128 = 12;

/// The cycles of a row, at most.
pub(crate) fn cycles(row: TableRow) -> u128
    ensures { result ≡ spec.cycles row }
{
    match row {
        TableRow::Move | TableRow::Add | TableRow::Subtract | TableRow::Multiply => 1,
        TableRow::Compare | TableRow::Logical | TableRow::Shift => 1,
        TableRow::Wait | TableRow::NoOperation => 1,
        TableRow::MultiplySubtract | TableRow::Load | TableRow::Store | TableRow::StateChange => 2,
        TableRow::Divide => 12,
        TableRow::Branch => 1 + REFILL,
        TableRow::Barrier => 1 + BARRIER,
    }
}

/// The row of an operation.
fn operation_row(operation: Operation) -> TableRow
    ensures { result ≡ spec.operation_row operation }
{
    match operation {
        Operation::And | Operation::ExclusiveOr | Operation::Or => TableRow::Logical,
        Operation::ShiftLeft | Operation::ShiftRight => TableRow::Shift,
        Operation::AddWithCarry => TableRow::Add,
        Operation::SubtractWithCarry | Operation::Negate => TableRow::Subtract,
        Operation::Compare => TableRow::Compare,
        Operation::Multiply => TableRow::Multiply,
    }
}

/// The row of an instruction.
pub(crate) fn table_row(instruction: Instruction) -> TableRow
    ensures { result ≡ spec.table_row instruction }
{
    match instruction {
        Instruction::Operate(operation, _, _) => operation_row(operation),
        Instruction::Move(..) | Instruction::MoveWide(..) | Instruction::MoveTop(..) =>
            TableRow::Move,
        Instruction::AddNumber(..) | Instruction::Add(..) | Instruction::AddStackPointer(_) => {
            TableRow::Add
        }
        Instruction::AddStack(_) | Instruction::AddStackWide(_) => TableRow::Add,
        Instruction::SubtractNumber(..) | Instruction::Subtract(..) => TableRow::Subtract,
        Instruction::SubtractStack(_) | Instruction::SubtractStackWide(_) => TableRow::Subtract,
        Instruction::CompareNumber(..) => TableRow::Compare,
        Instruction::MoveNot(..) => TableRow::Logical,
        Instruction::Load(..) | Instruction::LoadStack(..) => TableRow::Load,
        Instruction::LoadWide(..) | Instruction::LoadIndexed(..) => TableRow::Load,
        Instruction::Store(..) | Instruction::StoreByte(..) | Instruction::StoreStack(..) => {
            TableRow::Store
        }
        Instruction::StoreWide(..) | Instruction::StoreIndexed(..) => TableRow::Store,
        Instruction::Divide(..) => TableRow::Divide,
        Instruction::MultiplySubtract(..) => TableRow::MultiplySubtract,
        Instruction::Branch(_) | Instruction::BranchIf(..) | Instruction::Call(_) =>
            TableRow::Branch,
        Instruction::BranchExchange(_) => TableRow::Branch,
        Instruction::EnableInterrupts | Instruction::DisableInterrupts => TableRow::StateChange,
        Instruction::ReadSpecial(..) | Instruction::WriteSpecial(..) => TableRow::StateChange,
        Instruction::WaitForInterrupt => TableRow::Wait,
        Instruction::NoOperation => TableRow::NoOperation,
        Instruction::SynchronizeData | Instruction::SynchronizeInstructions => TableRow::Barrier,
    }
}
