// What a program has beside the image's code: what runs at reset, at a fault and at a tick.

ghost use Rattle.std.specs.Prelude.{◌≡◌, ◌+◌, ◌++◌, flat_map, OnOk};
ghost use Rattle.rt_native.specs.Service as spec;

use crate::outside::Outside;
use crate::pieces::{push_address, push_all, push_number, push_open_frame};
use crate::sequence::STIR;
use rt_code::{Handler, Image, Instr, IrqRow, Line};
use rt_ids::{Irq, NoMemory};
use rt_thumb::{Condition, Instruction, Operation};

/// The registers whose bits enable interrupts.
const ISER: u32 = 0xE000_E100;

/// The registers whose bytes are the priority values of interrupts.
const IPR: u32 = 0xE000_E400;

/// The registers of SysTick.
const SYSTICK: u32 = 0xE000_E010;

/// Appends what a fault leads to.
#[tactic(auto, unfolding(crate::specs::Service::fault))]
pub(crate) fn push_fault(out: &mut Vec<Instruction>) -> Result<(), NoMemory>
    ensures { OnOk result (out.new.items ≡ out.old.items ++ spec.fault) }
{
    push_all(out, &[Instruction::Branch(0xFFFF_FFFC)])
}

/// The interrupt that an `alarm` pends.
fn alarm_irq(instr: Instr) -> Option<Irq>
    ensures { result ≡ spec.alarm_irq instr }
{
    match instr {
        Instr::Alarm(_, irq) => Some(irq),
        _ => None,
    }
}

/// The interrupt that the first `alarm` of some code pends.
pub fn timer_irq(code: &[Line]) -> Option<Irq>
    ensures { result ≡ spec.timer_irq code.now }
{
    for line in code {
        if let Some(irq) = alarm_irq(line.0) {
            return Some(irq);
        }
    }
    None
}

/// The bytes of what is done at a tick where the alarm is due.
#[tactic(auto, using(crate::proofs::Sizes::tick_bytes, crate::proofs::Sizes::tick_bytes_alone))]
fn due_size(irq: &Option<Irq>) -> u32
    ensures { result ≡ spec.due_size_at_tick irq.now }
{
    match irq {
        Some(_) => 20,
        None => 6,
    }
}

/// Appends the handler of a tick.
#[tactic(auto, unfolding(crate::specs::Service::tick, crate::specs::Service::due_at_tick))]
pub fn push_tick(out: &mut Vec<Instruction>, at: Outside, irq: Option<Irq>) -> Result<(), NoMemory>
    ensures { OnOk result (out.new.items ≡ out.old.items ++ spec.tick at irq) }
{
    let compare = Instruction::Operate(Operation::Compare, 2, 1);
    let past = Instruction::BranchIf(Condition::Higher, due_size(&irq));
    push_address(out, 0, at.time)?;
    push_all(
        out,
        &[Instruction::Load(1, 0, 0), Instruction::AddNumber(1, 1)],
    )?;
    push_all(
        out,
        &[
            Instruction::Store(1, 0, 0),
            Instruction::Load(2, 0, 4),
            compare,
            past,
        ],
    )?;
    push_all(
        out,
        &[Instruction::MoveNot(2, 0), Instruction::Store(2, 0, 4)],
    )?;
    push_pend_timer(out, irq)?;
    push_all(out, &[Instruction::BranchExchange(14)])
}

/// Appends what pends the interrupt of the alarm.
#[tactic(auto, unfolding(crate::specs::Service::pend_timer))]
fn push_pend_timer(out: &mut Vec<Instruction>, irq: Option<Irq>) -> Result<(), NoMemory>
    ensures { OnOk result (out.new.items ≡ out.old.items ++ spec.pend_timer irq) }
{
    match irq {
        Some(irq) => {
            push_all(out, &[Instruction::MoveWide(1, u32::from(irq.get()))])?;
            push_address(out, 0, STIR)?;
            push_all(out, &[Instruction::Store(1, 0, 0)])
        }
        None => Ok(()),
    }
}

/// Appends what enables an interrupt at its priority value.
#[tactic(auto, unfolding(crate::specs::Service::enable))]
fn push_enable(
    out: &mut Vec<Instruction>,
    irq: Irq,
    handler: Option<Handler>,
) -> Result<(), NoMemory>
    ensures { OnOk result (out.new.items ≡ out.old.items ++ spec.enable irq handler) }
{
    let Some(handler) = handler else {
        return Ok(());
    };
    let number = u32::from(irq.get());
    push_number(out, 0, u32::from(handler.value))?;
    push_address(out, 1, IPR + number)?;
    push_all(out, &[Instruction::StoreByte(0, 1, 0)])?;
    push_number(out, 0, 1 << (number % 32))?;
    push_address(out, 1, ISER + 4 * (number / 32))?;
    push_all(out, &[Instruction::Store(0, 1, 0)])
}

/// Appends what enables the interrupts of rows.
fn push_enable_all(out: &mut Vec<Instruction>, rows: &[IrqRow]) -> Result<(), NoMemory>
    ensures { OnOk result (out.new.items
        ≡ out.old.items ++ flat_map (λ row. spec.enable row.number row.handler) rows.now) }
{
    for row in rows {
        push_enable(out, row.number, row.handler)?;
    }
    Ok(())
}

/// Appends what lets SysTick count.
#[tactic(auto, unfolding(crate::specs::Service::start_tick))]
fn push_start_tick(out: &mut Vec<Instruction>, tick: Option<u32>) -> Result<(), NoMemory>
    ensures { OnOk result (out.new.items ≡ out.old.items ++ spec.start_tick tick) }
{
    let Some(reload) = tick else {
        return Ok(());
    };
    push_address(out, 1, SYSTICK)?;
    push_number(out, 0, reload)?;
    push_all(
        out,
        &[Instruction::Store(0, 1, 4), Instruction::Store(0, 1, 8)],
    )?;
    push_all(out, &[Instruction::Move(0, 7), Instruction::Store(0, 1, 0)])
}

/// Appends what copies words from one address on to others, up to one that is not one of them.
#[tactic(auto, unfolding(crate::specs::Service::copy_words))]
fn push_copy_words(
    out: &mut Vec<Instruction>,
    from: u32,
    to: u32,
    behind: u32,
) -> Result<(), NoMemory>
    ensures { OnOk result (out.new.items ≡ out.old.items ++ spec.copy_words from to behind) }
{
    let compare = Instruction::Operate(Operation::Compare, 1, 2);
    let past = Instruction::BranchIf(Condition::Equal, 12);
    push_address(out, 0, from)?;
    push_address(out, 1, to)?;
    push_address(out, 2, behind)?;
    push_all(
        out,
        &[
            compare,
            past,
            Instruction::Load(3, 0, 0),
            Instruction::Store(3, 1, 0),
        ],
    )?;
    push_all(
        out,
        &[Instruction::AddNumber(0, 4), Instruction::AddNumber(1, 4)],
    )?;
    push_all(out, &[Instruction::Branch(0xFFFF_FFEE)])
}

/// Appends what runs at reset. First values lie from an address on.
#[tactic(auto, unfolding(crate::specs::Service::reset))]
pub(crate) fn push_reset(
    out: &mut Vec<Instruction>,
    at: Outside,
    tick: Option<u32>,
    image: &Image,
    load: u32,
) -> Result<(), NoMemory>
    ensures { OnOk result (out.new.items ≡ out.old.items ++ spec.reset at tick image.now load) }
{
    let (data, instructions) = (
        Instruction::SynchronizeData,
        Instruction::SynchronizeInstructions,
    );
    push_all(out, &[Instruction::DisableInterrupts])?;
    push_enable_all(out, &image.irqs)?;
    push_copy_words(out, load, at.cells, at.time.wrapping_add(8))?;
    push_start_tick(out, tick)?;
    push_open_frame(out, image.thread_words)?;
    push_all(out, &[data, instructions])
}
