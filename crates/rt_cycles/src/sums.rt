// Sums of cycles over the code of an image.

ghost use Rattle.std.specs.Prelude.{◌≡◌, ◌+◌, ◌<◌, ◌^◌, IfOk};
ghost use Rattle.rt_cycles.specs.Sums as spec;

use crate::table::{ENTRY, RETURN, cycles, table_row};
use rt_code::{Image, Instr, IrqRow};
use rt_ids::NoMemory;
use rt_native::{Outside, push_sequence, push_stub, push_tick, timer_irq};
use rt_thumb::Instruction;
use std::alloc::Global;

/// All addresses are 0: no sum depends on them.
fn nowhere() -> Outside
    ensures { result ≡ spec.nowhere }
{
    Outside {
        cells: 0,
        time: 0,
        port: 0,
    }
}

/// The cycles of instructions, one after the other.
fn cycles_of(code: &[Instruction]) -> u128
    ensures sum { result ≡ spec.cycles_of code.now }
    ensures few { result < 2 ^ 68 }
{
    let mut sum = 0;
    for instruction in code {
        sum += cycles(table_row(*instruction));
    }
    sum
}

/// The exception return of an instruction that ends a handler.
fn leaving(instr: &Instr) -> u128
    ensures sum { result ≡ spec.leaving instr.now }
    ensures few { result < 2 ^ 68 }
{
    match instr {
        Instr::Ret => RETURN,
        _ => 0,
    }
}

/// The cycles of the instruction at an address of an image.
pub(crate) fn instr_cycles(
    alloc: Global,
    image: &Image,
    address: usize,
    instr: Instr,
) -> Result<u128, NoMemory>
    requires { address + 1 < 2 ^ 64 }
    ensures sum { IfOk result (λ sum. sum ≡ spec.instr_cycles image.now address instr) }
    ensures few { IfOk result (λ sum. sum < 2 ^ 69) }
{
    let mut code = Vec::new(alloc);
    push_sequence(&mut code, nowhere(), image, &[], address, instr)?;
    Ok(cycles_of(&code) + leaving(&instr))
}

/// The cycles of an exception entry, with what runs before the handler's code; 0 where the interrupt is not enabled.
fn entering(alloc: Global, row: &IrqRow) -> Result<u128, NoMemory>
    ensures sum { IfOk result (λ sum. sum ≡ spec.entering row.now.number row.now.handler) }
    ensures few { IfOk result (λ sum. sum < 2 ^ 69) }
{
    if row.handler.is_none() {
        return Ok(0);
    }
    let mut code = Vec::new(alloc);
    push_stub(&mut code, nowhere(), &[], &[], 0, row)?;
    Ok(ENTRY + cycles_of(&code))
}

/// The cycles of a `take`, at most.
pub(crate) fn take_cycles(alloc: Global, image: &Image) -> Result<u128, NoMemory>
    ensures sum { IfOk result (λ sum. sum ≡ spec.take_cycles image.now) }
    ensures few { IfOk result (λ sum. sum < 2 ^ 69) }
{
    let mut most = 0;
    for row in &image.irqs {
        most = entering(alloc, row)?.max(most);
    }
    Ok(most)
}

/// The cycles of a step of the core, at most.
pub(crate) fn step_cycles(alloc: Global, image: &Image) -> Result<u128, NoMemory>
    ensures sum { IfOk result (λ sum. sum ≡ spec.step_cycles image.now) }
    ensures few { IfOk result (λ sum. sum < 2 ^ 69) }
{
    let mut most = take_cycles(alloc, image)?;
    for (address, line) in image.code.iter().enumerate() {
        most = instr_cycles(alloc, image, address, line.0)?.max(most);
    }
    Ok(most)
}

/// The cycles of a tick, with its entry and its return.
pub(crate) fn tick_cycles(alloc: Global, image: &Image) -> Result<u128, NoMemory>
    ensures { IfOk result (λ sum. sum ≡ spec.tick_cycles image.now) }
{
    let mut code = Vec::new(alloc);
    push_tick(&mut code, nowhere(), timer_irq(&image.code))?;
    Ok(ENTRY + cycles_of(&code) + RETURN)
}
