// Pieces that sequences of instructions are made of.

ghost use Rattle.std.specs.Prelude.{◌≡◌, ◌++◌, ◌<◌, OnOk};
ghost use Rattle.rt_native.specs.Pieces as spec;

use rt_ids::NoMemory;
use rt_thumb::Instruction;

/// The greatest step of SP in one instruction that keeps it a multiple of 8.
const STEP: u32 = 4088;

/// Appends instructions.
pub(crate) fn push_all(
    out: &mut Vec<Instruction>,
    instructions: &[Instruction],
) -> Result<(), NoMemory>
    ensures { OnOk result (out.new.items ≡ out.old.items ++ instructions.now) }
{
    out.extend_from_slice(instructions)?;
    Ok(())
}

/// Appends what puts a number into a register, by two instructions.
#[tactic(auto, unfolding(crate::specs::Pieces::address))]
pub(crate) fn push_address(
    out: &mut Vec<Instruction>,
    register: u32,
    number: u32,
) -> Result<(), NoMemory>
    ensures { OnOk result (out.new.items ≡ out.old.items ++ spec.address register number) }
{
    let low = Instruction::MoveWide(register, number % 0x10000);
    push_all(
        out,
        &[low, Instruction::MoveTop(register, number / 0x10000)],
    )
}

/// Appends what puts a number into a register.
#[tactic(auto, unfolding(crate::specs::Pieces::number))]
pub(crate) fn push_number(
    out: &mut Vec<Instruction>,
    register: u32,
    number: u32,
) -> Result<(), NoMemory>
    ensures { OnOk result (out.new.items ≡ out.old.items ++ spec.number register number) }
{
    if number < 0x100 {
        push_all(out, &[Instruction::Move(register, number)])
    } else if number < 0x10000 {
        push_all(out, &[Instruction::MoveWide(register, number)])
    } else {
        push_address(out, register, number)
    }
}

/// Appends what puts the address of a slot into r3.
#[tactic(auto, unfolding(crate::specs::Pieces::far_slot))]
fn push_far_slot(out: &mut Vec<Instruction>, slot: u32) -> Result<(), NoMemory>
    ensures { OnOk result (out.new.items ≡ out.old.items ++ spec.far_slot slot) }
{
    push_number(out, 3, slot.wrapping_mul(4))?;
    push_all(out, &[Instruction::AddStackPointer(3)])
}

/// Appends what reads a slot into a register.
#[tactic(auto, unfolding(crate::specs::Pieces::read_slot))]
pub(crate) fn push_read_slot(
    out: &mut Vec<Instruction>,
    register: u32,
    slot: u32,
) -> Result<(), NoMemory>
    ensures { OnOk result (out.new.items ≡ out.old.items ++ spec.read_slot register slot) }
{
    if slot < 0x100 {
        push_all(out, &[Instruction::LoadStack(register, 4 * slot)])
    } else if slot < 0x400 {
        push_all(out, &[Instruction::LoadWide(register, 13, 4 * slot)])
    } else {
        push_far_slot(out, slot)?;
        push_all(out, &[Instruction::Load(register, 3, 0)])
    }
}

/// Appends what writes a slot from a register.
#[tactic(auto, unfolding(crate::specs::Pieces::write_slot))]
pub(crate) fn push_write_slot(
    out: &mut Vec<Instruction>,
    register: u32,
    slot: u32,
) -> Result<(), NoMemory>
    ensures { OnOk result (out.new.items ≡ out.old.items ++ spec.write_slot register slot) }
{
    if slot < 0x100 {
        push_all(out, &[Instruction::StoreStack(register, 4 * slot)])
    } else if slot < 0x400 {
        push_all(out, &[Instruction::StoreWide(register, 13, 4 * slot)])
    } else {
        push_far_slot(out, slot)?;
        push_all(out, &[Instruction::Store(register, 3, 0)])
    }
}

/// Appends what opens a frame of so many words.
#[tactic(auto, using(std::proofs::lemmas::List::replicate_more), unfolding(crate::specs::Pieces::open_frame))]
pub(crate) fn push_open_frame(out: &mut Vec<Instruction>, words: u32) -> Result<(), NoMemory>
    ensures { OnOk result (out.new.items ≡ out.old.items ++ spec.open_frame words) }
{
    let bytes = words.wrapping_mul(4);
    let count = bytes / STEP;
    for step in 0..count {
        push_all(out, &[Instruction::SubtractStackWide(STEP)])?;
    }
    push_fall(out, bytes % STEP)
}

/// Appends what lets SP fall by less than a step.
#[tactic(auto, unfolding(crate::specs::Pieces::fall))]
fn push_fall(out: &mut Vec<Instruction>, bytes: u32) -> Result<(), NoMemory>
    ensures { OnOk result (out.new.items ≡ out.old.items ++ spec.fall bytes) }
{
    if bytes == 0 {
        Ok(())
    } else if bytes < 0x200 {
        push_all(out, &[Instruction::SubtractStack(bytes)])
    } else {
        push_all(out, &[Instruction::SubtractStackWide(bytes)])
    }
}

/// Appends what closes a frame of so many words.
#[tactic(auto, using(std::proofs::lemmas::List::replicate_more), unfolding(crate::specs::Pieces::close_frame))]
pub(crate) fn push_close_frame(out: &mut Vec<Instruction>, words: u32) -> Result<(), NoMemory>
    ensures { OnOk result (out.new.items ≡ out.old.items ++ spec.close_frame words) }
{
    let bytes = words.wrapping_mul(4);
    let count = bytes / STEP;
    for step in 0..count {
        push_all(out, &[Instruction::AddStackWide(STEP)])?;
    }
    push_rise(out, bytes % STEP)
}

/// Appends what lets SP rise by less than a step.
#[tactic(auto, unfolding(crate::specs::Pieces::rise))]
fn push_rise(out: &mut Vec<Instruction>, bytes: u32) -> Result<(), NoMemory>
    ensures { OnOk result (out.new.items ≡ out.old.items ++ spec.rise bytes) }
{
    if bytes == 0 {
        Ok(())
    } else if bytes < 0x200 {
        push_all(out, &[Instruction::AddStack(bytes)])
    } else {
        push_all(out, &[Instruction::AddStackWide(bytes)])
    }
}

/// The displacement of a branch of four bytes that ends at an address.
#[tactic(auto, unfolding(crate::specs::Pieces::leap))]
pub(crate) fn leap(behind: u32, target: u32) -> u32
    ensures { result ≡ spec.leap behind target }
{
    target.wrapping_sub(behind)
}
