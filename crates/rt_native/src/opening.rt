// What runs first as an interrupt is taken.

ghost use Rattle.std.specs.Prelude.{◌≡◌, ◌++◌, filter, flat_map, ◌==◌, Some, OnOk};
ghost use Rattle.rt_native.specs.Service as spec;

use crate::outside::{Outside, cell};
use crate::pieces::{push_address, push_all, push_open_frame};
use crate::sequence::{place_of, push_branch};
use crate::target::{Input, Target};
use rt_code::{Handler, IrqRow};
use rt_ids::{Irq, NoMemory};
use rt_thumb::Instruction;

/// Appends what reads a cell from a device.
#[tactic(auto, unfolding(crate::specs::Service::read_input))]
fn push_input(out: &mut Vec<Instruction>, at: Outside, input: &Input) -> Result<(), NoMemory>
    ensures { OnOk result (out.new.items ≡ out.old.items ++ spec.read_input at input.now) }
{
    push_address(out, 1, input.address)?;
    push_all(out, &[Instruction::Load(0, 1, 0)])?;
    push_address(out, 1, cell(at, input.cell))?;
    push_all(out, &[Instruction::Store(0, 1, 0)])
}

/// Appends what reads the cells of an interrupt.
fn push_inputs(
    out: &mut Vec<Instruction>,
    at: Outside,
    inputs: &[Input],
    irq: Irq,
) -> Result<(), NoMemory>
    ensures { OnOk result (out.new.items
        ≡ out.old.items ++ flat_map (spec.read_input at) (filter (λ i. i.irq == irq) inputs.now)) }
{
    for input in inputs {
        if input.irq == irq {
            push_input(out, at, input)?;
        }
    }
    Ok(())
}

/// Appends what runs before a handler's code.
#[tactic(auto, unfolding(crate::specs::Service::opening))]
pub(crate) fn push_opening(
    out: &mut Vec<Instruction>,
    at: Outside,
    inputs: &[Input],
    irq: Irq,
    handler: Handler,
) -> Result<(), NoMemory>
    ensures { OnOk result (out.new.items ≡ out.old.items ++ spec.opening at inputs.now irq handler) }
{
    push_inputs(out, at, inputs, irq)?;
    push_open_frame(out, handler.frame)
}

/// Appends what runs as an interrupt is taken, up to its handler's code. It ends before an address.
#[tactic(auto, unfolding(crate::specs::Service::stub))]
pub fn push_stub(
    out: &mut Vec<Instruction>,
    at: Outside,
    inputs: &[Input],
    places: &[u32],
    behind: u32,
    row: &IrqRow,
) -> Result<(), NoMemory>
    ensures { OnOk result (out.new.items
        ≡ out.old.items ++ spec.stub at inputs.now places.now behind row.now.number row.now.handler) }
{
    match row.handler {
        Some(handler) => {
            push_opening(out, at, inputs, row.number, handler)?;
            push_branch(out, behind, place_of(places, handler.entry as usize))
        }
        None => Ok(()),
    }
}

/// The displacement of a BL before a linker writes it.
const UNLINKED: u32 = 0xFFFF_FFFC;

/// Appends what keeps LR on the stack.
#[tactic(auto, unfolding(crate::specs::Service::keep_return))]
fn push_keep_return(out: &mut Vec<Instruction>) -> Result<(), NoMemory>
    ensures { OnOk result (out.new.items ≡ out.old.items ++ spec.keep_return) }
{
    push_all(
        out,
        &[
            Instruction::SubtractStack(8),
            Instruction::StoreWide(14, 13, 0),
        ],
    )
}

/// Appends what takes LR from the stack again.
#[tactic(auto, unfolding(crate::specs::Service::take_return))]
fn push_take_return(out: &mut Vec<Instruction>) -> Result<(), NoMemory>
    ensures { OnOk result (out.new.items ≡ out.old.items ++ spec.take_return) }
{
    push_all(
        out,
        &[Instruction::LoadWide(14, 13, 0), Instruction::AddStack(8)],
    )
}

/// Appends what calls a function of C.
#[tactic(auto, unfolding(crate::specs::Service::call_function))]
fn push_call_function(out: &mut Vec<Instruction>) -> Result<(), NoMemory>
    ensures { OnOk result (out.new.items ≡ out.old.items ++ spec.call_function) }
{
    push_keep_return(out)?;
    push_all(out, &[Instruction::Call(UNLINKED)])?;
    push_take_return(out)
}

/// Whether a function of C is called first as an interrupt is taken.
fn is_called(calls: &[Irq], irq: Irq) -> bool
    ensures { result ≡ spec.is_called calls.now irq }
{
    calls.iter().any(|call| *call == irq)
}

/// Whether a function of C is called first as an interrupt is taken, which is enabled.
pub(crate) fn calls_first(calls: &[Irq], irq: Irq, handler: Option<Handler>) -> bool
    ensures { result ≡ spec.calls_first calls.now irq handler }
{
    match handler {
        Some(_) => is_called(calls, irq),
        None => false,
    }
}

/// Appends what calls a function of C, where one is called first as an interrupt is taken.
pub(crate) fn push_first_call(
    out: &mut Vec<Instruction>,
    calls: &[Irq],
    irq: Irq,
    handler: Option<Handler>,
) -> Result<(), NoMemory>
    ensures { OnOk result (out.new.items ≡ out.old.items ++ spec.first_call calls.now irq handler) }
{
    if calls_first(calls, irq, handler) {
        push_call_function(out)
    } else {
        Ok(())
    }
}

/// Appends what runs first as the interrupt of a row is taken. It ends before an address.
#[tactic(auto, unfolding(crate::specs::Service::entrance))]
pub(crate) fn push_entrance(
    out: &mut Vec<Instruction>,
    at: Outside,
    target: &Target,
    places: &[u32],
    behind: u32,
    row: &IrqRow,
) -> Result<(), NoMemory>
    ensures { OnOk result (out.new.items
        ≡ out.old.items ++ spec.entrance at target.now places.now behind row.now) }
{
    push_first_call(out, &target.calls, row.number, row.handler)?;
    push_stub(out, at, &target.inputs, places, behind, row)
}
