// The sequence of Thumb instructions of each instruction of an image.

ghost use Rattle.std.specs.Prelude.{◌≡◌, ◌+◌, ◌<◌, ◌^◌, ◌++◌, slice_index, OnOk};
ghost use Rattle.rt_native.specs.Pieces.{bytes_of};
ghost use Rattle.rt_native.specs.Sequences as spec;

use crate::calculation::push_calculation;
use crate::frames::{body_words, handler_words};
use crate::outside::{Outside, cell};
use crate::pieces::{
    leap, push_address, push_all, push_close_frame, push_number, push_open_frame, push_read_slot,
    push_write_slot,
};
use rt_code::{BodyRow, Image, Instr};
use rt_ids::{Irq, NoMemory, Op};
use rt_thumb::{Condition, Instruction, Operation, Special};

/// The register whose write makes the interrupt of its number pending.
pub(crate) const STIR: u32 = 0xE000_EF00;

/// Where a handler that calls bodies keeps the return address.
const RETURN_SLOT: u32 = 15;

/// The address at which the code of an instruction of the image begins, 0 past the end.
pub(crate) fn place_of(places: &[u32], address: usize) -> u32
    ensures { result ≡ slice_index places.now address }
{
    places.get(address).copied().unwrap_or(0)
}

/// Appends the code of an instruction of an image, which stands at an address there.
pub fn push_sequence(
    out: &mut Vec<Instruction>,
    at: Outside,
    image: &Image,
    places: &[u32],
    address: usize,
    instr: Instr,
) -> Result<(), NoMemory>
    requires { address + 1 < 2 ^ 64 }
    ensures { OnOk result
        (out.new.items ≡ out.old.items ++ spec.sequence at image.now places.now address instr) }
{
    let behind = place_of(places, address + 1);
    match instr {
        Instr::Set(to, value) => push_set(out, to, value),
        Instr::Copy(to, from) => push_copy(out, to, from),
        Instr::Calc(op, to, a, b) => push_calc(out, op, to, a, b),
        Instr::Load(to, from) => push_load(out, cell(at, from), to),
        Instr::Store(to, from) => push_store(out, cell(at, to), from),
        Instr::LoadAt(to, from, index) => push_load_at(out, cell(at, from), to, index),
        Instr::StoreAt(to, index, from) => push_store_at(out, cell(at, to), index, from),
        Instr::Jump(to) => push_branch(out, behind, place_of(places, to as usize)),
        Instr::JumpZ(slot, to) => {
            push_branch_if_zero(out, behind, slot, place_of(places, to as usize))
        }
        Instr::Emit(slot) => push_store(out, at.port, slot),
        Instr::Post(irq) => push_pend(out, irq),
        Instr::Clock(to) => push_load(out, at.time, to),
        Instr::Alarm(slot, irq) => push_alarm(out, at, slot, irq),
        Instr::NoAlarm => push_no_alarm(out, at),
        Instr::Raise(to, value) => push_raise(out, to, value),
        Instr::Restore(slot) => push_restore(out, Special::BasePriority, slot),
        Instr::Mask(to) => push_mask(out, to),
        Instr::Unmask(slot) => push_restore(out, Special::PriorityMask, slot),
        Instr::Mark => Ok(()),
        Instr::Serve => push_serve(out),
        Instr::Wait => push_wait(out, behind, place_of(places, address)),
        Instr::Call(row, slot) => {
            push_call(
                out,
                places,
                behind,
                image.bodies.get(row as usize).copied(),
                slot,
            )
        }
        Instr::Back => push_back(out, body_words(&image.bodies, address)),
        Instr::Ret => push_ret(out, handler_words(&image.irqs, address)),
    }
}

/// Appends `set`.
#[tactic(auto, unfolding(crate::specs::Sequences::set_slot))]
fn push_set(out: &mut Vec<Instruction>, to: u32, value: u32) -> Result<(), NoMemory>
    ensures { OnOk result (out.new.items ≡ out.old.items ++ spec.set_slot to value) }
{
    push_number(out, 0, value)?;
    push_write_slot(out, 0, to)
}

/// Appends `copy`.
#[tactic(auto, unfolding(crate::specs::Sequences::copy_slot))]
fn push_copy(out: &mut Vec<Instruction>, to: u32, from: u32) -> Result<(), NoMemory>
    ensures { OnOk result (out.new.items ≡ out.old.items ++ spec.copy_slot to from) }
{
    push_read_slot(out, 0, from)?;
    push_write_slot(out, 0, to)
}

/// Appends an operation on two slots.
#[tactic(auto, unfolding(crate::specs::Sequences::calculate))]
fn push_calc(out: &mut Vec<Instruction>, op: Op, to: u32, a: u32, b: u32) -> Result<(), NoMemory>
    ensures { OnOk result (out.new.items ≡ out.old.items ++ spec.calculate op to a b) }
{
    push_read_slot(out, 0, a)?;
    push_read_slot(out, 1, b)?;
    push_calculation(out, op)?;
    push_write_slot(out, 0, to)
}

/// Appends the load of a word at an address into a slot.
#[tactic(auto, unfolding(crate::specs::Sequences::load_word))]
fn push_load(out: &mut Vec<Instruction>, address: u32, to: u32) -> Result<(), NoMemory>
    ensures { OnOk result (out.new.items ≡ out.old.items ++ spec.load_word address to) }
{
    push_address(out, 1, address)?;
    push_all(out, &[Instruction::Load(0, 1, 0)])?;
    push_write_slot(out, 0, to)
}

/// Appends the store of a slot into the word at an address.
#[tactic(auto, unfolding(crate::specs::Sequences::store_word))]
fn push_store(out: &mut Vec<Instruction>, address: u32, from: u32) -> Result<(), NoMemory>
    ensures { OnOk result (out.new.items ≡ out.old.items ++ spec.store_word address from) }
{
    push_read_slot(out, 0, from)?;
    push_address(out, 1, address)?;
    push_all(out, &[Instruction::Store(0, 1, 0)])
}

/// Appends the load of the word that is a slot's number of words behind an address.
#[tactic(auto, unfolding(crate::specs::Sequences::load_word_at))]
fn push_load_at(
    out: &mut Vec<Instruction>,
    address: u32,
    to: u32,
    index: u32,
) -> Result<(), NoMemory>
    ensures { OnOk result (out.new.items ≡ out.old.items ++ spec.load_word_at address to index) }
{
    push_read_slot(out, 0, index)?;
    push_address(out, 1, address)?;
    push_all(out, &[Instruction::LoadIndexed(0, 1, 0)])?;
    push_write_slot(out, 0, to)
}

/// Appends the store of a slot into the word that is another slot's number of words behind an address.
#[tactic(auto, unfolding(crate::specs::Sequences::store_word_at))]
fn push_store_at(
    out: &mut Vec<Instruction>,
    address: u32,
    index: u32,
    from: u32,
) -> Result<(), NoMemory>
    ensures { OnOk result (out.new.items ≡ out.old.items ++ spec.store_word_at address index from) }
{
    push_read_slot(out, 0, from)?;
    push_read_slot(out, 2, index)?;
    push_address(out, 1, address)?;
    push_all(out, &[Instruction::StoreIndexed(0, 1, 2)])
}

/// Appends a branch to a place. It ends before an address.
#[tactic(auto, unfolding(crate::specs::Sequences::branch))]
pub(crate) fn push_branch(
    out: &mut Vec<Instruction>,
    behind: u32,
    place: u32,
) -> Result<(), NoMemory>
    ensures { OnOk result (out.new.items ≡ out.old.items ++ spec.branch behind place) }
{
    push_all(out, &[Instruction::Branch(leap(behind, place))])
}

/// Appends a branch to a place where a slot is 0. It ends before an address.
#[tactic(auto, unfolding(crate::specs::Sequences::branch_if_zero))]
fn push_branch_if_zero(
    out: &mut Vec<Instruction>,
    behind: u32,
    slot: u32,
    place: u32,
) -> Result<(), NoMemory>
    ensures { OnOk result (out.new.items ≡ out.old.items ++ spec.branch_if_zero behind slot place) }
{
    let branch = Instruction::BranchIf(Condition::Equal, leap(behind, place));
    push_read_slot(out, 0, slot)?;
    push_all(out, &[Instruction::CompareNumber(0, 0), branch])
}

/// Appends `wait`, which stands at a place and ends before an address.
#[tactic(auto, unfolding(crate::specs::Sequences::wait))]
fn push_wait(out: &mut Vec<Instruction>, behind: u32, place: u32) -> Result<(), NoMemory>
    ensures { OnOk result (out.new.items ≡ out.old.items ++ spec.wait behind place) }
{
    push_all(out, &[Instruction::WaitForInterrupt])?;
    push_branch(out, behind, place)
}

/// Appends what makes an interrupt pending, at once.
#[tactic(auto, unfolding(crate::specs::Sequences::pend))]
fn push_pend(out: &mut Vec<Instruction>, irq: Irq) -> Result<(), NoMemory>
    ensures { OnOk result (out.new.items ≡ out.old.items ++ spec.pend irq) }
{
    let (data, instructions) = (
        Instruction::SynchronizeData,
        Instruction::SynchronizeInstructions,
    );
    push_all(out, &[Instruction::MoveWide(0, u32::from(irq.get()))])?;
    push_address(out, 1, STIR)?;
    push_all(out, &[Instruction::Store(0, 1, 0), data, instructions])
}

/// The bytes of what is done where an alarm is due.
#[tactic(auto, using(crate::proofs::Sizes::due_bytes))]
fn due_size(irq: &Irq) -> u32
    ensures { result ≡ bytes_of (spec.due irq.now) }
{
    28
}

/// Appends `alarm`.
#[tactic(auto, unfolding(crate::specs::Sequences::set_alarm))]
fn push_alarm(out: &mut Vec<Instruction>, at: Outside, slot: u32, irq: Irq) -> Result<(), NoMemory>
    ensures { OnOk result (out.new.items ≡ out.old.items ++ spec.set_alarm at slot irq) }
{
    let compare = Instruction::Operate(Operation::Compare, 0, 2);
    let past = Instruction::BranchIf(Condition::Higher, due_size(&irq));
    push_read_slot(out, 0, slot)?;
    push_address(out, 1, at.time)?;
    push_all(
        out,
        &[
            Instruction::Store(0, 1, 4),
            Instruction::Load(2, 1, 0),
            compare,
            past,
        ],
    )?;
    push_due(out, irq)
}

/// Appends what is done where an alarm is due.
#[tactic(auto, unfolding(crate::specs::Sequences::due))]
fn push_due(out: &mut Vec<Instruction>, irq: Irq) -> Result<(), NoMemory>
    ensures { OnOk result (out.new.items ≡ out.old.items ++ spec.due irq) }
{
    let none = [Instruction::MoveNot(2, 0), Instruction::Store(2, 1, 4)];
    push_all(out, &none)?;
    push_pend(out, irq)
}

/// Appends `noalarm`.
#[tactic(auto, unfolding(crate::specs::Sequences::no_alarm))]
fn push_no_alarm(out: &mut Vec<Instruction>, at: Outside) -> Result<(), NoMemory>
    ensures { OnOk result (out.new.items ≡ out.old.items ++ spec.no_alarm at) }
{
    push_address(out, 1, at.time)?;
    push_all(
        out,
        &[Instruction::MoveNot(0, 0), Instruction::Store(0, 1, 4)],
    )
}

/// Appends `raise`.
#[tactic(auto, unfolding(crate::specs::Sequences::raise))]
fn push_raise(out: &mut Vec<Instruction>, to: u32, value: u32) -> Result<(), NoMemory>
    ensures { OnOk result (out.new.items ≡ out.old.items ++ spec.raise to value) }
{
    push_all(out, &[Instruction::ReadSpecial(0, Special::BasePriority)])?;
    push_write_slot(out, 0, to)?;
    push_number(out, 1, value)?;
    push_all(out, &[Instruction::WriteSpecial(Special::BasePriority, 1)])
}

/// Appends `restore` or `unmask`.
#[tactic(auto, unfolding(crate::specs::Sequences::restore))]
fn push_restore(out: &mut Vec<Instruction>, special: Special, slot: u32) -> Result<(), NoMemory>
    ensures { OnOk result (out.new.items ≡ out.old.items ++ spec.restore special slot) }
{
    let write = Instruction::WriteSpecial(special, 0);
    push_read_slot(out, 0, slot)?;
    push_all(out, &[write, Instruction::SynchronizeInstructions])
}

/// Appends `mask`.
#[tactic(auto, unfolding(crate::specs::Sequences::mask))]
fn push_mask(out: &mut Vec<Instruction>, to: u32) -> Result<(), NoMemory>
    ensures { OnOk result (out.new.items ≡ out.old.items ++ spec.mask to) }
{
    push_all(out, &[Instruction::ReadSpecial(0, Special::PriorityMask)])?;
    push_write_slot(out, 0, to)?;
    push_all(out, &[Instruction::DisableInterrupts])
}

/// Appends `serve`.
#[tactic(auto, unfolding(crate::specs::Sequences::serve))]
fn push_serve(out: &mut Vec<Instruction>) -> Result<(), NoMemory>
    ensures { OnOk result (out.new.items ≡ out.old.items ++ spec.serve) }
{
    push_all(
        out,
        &[
            Instruction::EnableInterrupts,
            Instruction::SynchronizeInstructions,
        ],
    )
}

/// Appends the call of a body, where its row is there, with its arguments in the slots from one on. It ends before an
/// address.
#[tactic(auto, unfolding(crate::specs::Sequences::call))]
fn push_call(
    out: &mut Vec<Instruction>,
    places: &[u32],
    behind: u32,
    row: Option<BodyRow>,
    slot: u32,
) -> Result<(), NoMemory>
    ensures { OnOk result (out.new.items ≡ out.old.items ++ spec.call places.now behind slot row) }
{
    let Some(row) = row else {
        return Ok(());
    };
    let args = u32::from(row.args);
    push_address(out, 0, behind.wrapping_add(1))?;
    push_write_slot(out, 0, RETURN_SLOT)?;
    push_read_arguments(out, args, slot)?;
    push_open_frame(out, row.frame)?;
    push_write_arguments(out, args)?;
    push_branch(out, behind, place_of(places, row.entry as usize))
}

/// Appends what reads arguments in the slots from one on into registers from r0 on.
#[tactic(auto, unfolding(crate::specs::Sequences::read_arguments))]
fn push_read_arguments(out: &mut Vec<Instruction>, args: u32, slot: u32) -> Result<(), NoMemory>
    ensures { OnOk result (out.new.items ≡ out.old.items ++ spec.read_arguments args slot) }
{
    for k in 0..args {
        push_read_slot(out, k, slot.wrapping_add(k))?;
    }
    Ok(())
}

/// Appends what writes arguments into the first slots.
#[tactic(auto, unfolding(crate::specs::Sequences::write_arguments))]
fn push_write_arguments(out: &mut Vec<Instruction>, args: u32) -> Result<(), NoMemory>
    ensures { OnOk result (out.new.items ≡ out.old.items ++ spec.write_arguments args) }
{
    for k in 0..args {
        push_write_slot(out, k, k)?;
    }
    Ok(())
}

/// Appends `back`, from a body with a frame of so many words.
#[tactic(auto, unfolding(crate::specs::Sequences::back))]
fn push_back(out: &mut Vec<Instruction>, words: u32) -> Result<(), NoMemory>
    ensures { OnOk result (out.new.items ≡ out.old.items ++ spec.back words) }
{
    push_close_frame(out, words)?;
    push_read_slot(out, 0, RETURN_SLOT)?;
    push_all(out, &[Instruction::BranchExchange(0)])
}

/// Appends `ret`, from a handler with a frame of so many words.
#[tactic(auto, unfolding(crate::specs::Sequences::ret))]
fn push_ret(out: &mut Vec<Instruction>, words: u32) -> Result<(), NoMemory>
    ensures { OnOk result (out.new.items ≡ out.old.items ++ spec.ret words) }
{
    push_close_frame(out, words)?;
    push_all(out, &[Instruction::BranchExchange(14)])
}
