// Executes one instruction.

ghost use Rattle.std.specs.Prelude.{◌≡◌, ℕ, ◌+◌, ◌^◌, ◌<◌, nat_lt, true, false, List, length, slice_index, slice_set};
ghost use Rattle.std.specs.Prelude.{IfOk, OnOk, IfErr};
ghost use Rattle.rt_code.specs.Processor.{processor, HasEffect};
ghost use Rattle.rt_code.specs.Effect.{effect};
ghost use Rattle.rt_code.specs.Inside.Does.{Does};

use crate::instr::Instr;
use crate::processor::{Registers, Request, Trap};
use rt_ids::{Irq, Op};

/// The word of a slot.
fn word(slots: &[u32], slot: u32) -> Result<u32, Trap>
    ensures there { IfOk result
        (λ value. (nat_lt slot (length slots.now) ≡ true) × (value ≡ slice_index slots.now slot)) }
    ensures missing { IfErr result (λ trap. (nat_lt slot (length slots.now) ≡ false) × (trap ≡ Trap.Stack)) }
{
    let slot = slot as usize;
    if slot < slots.len() {
        Ok(slots[slot])
    } else {
        Err(Trap::Stack)
    }
}

/// Writes a value into a slot.
fn write(slots: &mut [u32], slot: u32, value: u32) -> Result<(), Trap>
    ensures there { OnOk result
        ((nat_lt slot (length slots.old) ≡ true) × (slots.new ≡ slice_set slots.old slot value)) }
    ensures missing { IfErr result
        (λ trap. (nat_lt slot (length slots.old) ≡ false) × (trap ≡ Trap.Stack) × (slots.new ≡ slots.old)) }
{
    let slot = slot as usize;
    if slot >= slots.len() {
        return Err(Trap::Stack);
    }
    slots[slot] = value;
    Ok(())
}

/// Finds a cell.
fn find(cells: &[u32], cell: usize) -> Result<usize, Trap>
    ensures there { IfOk result
        (λ index. (nat_lt cell (length cells.now) ≡ true) × (index ≡ cell) × (index < length cells.now)) }
    ensures missing { IfErr result (λ trap. (nat_lt cell (length cells.now) ≡ false) × (trap ≡ Trap.Address)) }
{
    if cell < cells.len() {
        Ok(cell)
    } else {
        Err(Trap::Address)
    }
}

/// Goes on to the next address, with a request.
fn go_on(registers: &mut Registers, request: Request) -> Request
    requires { registers.old.address + 1 < 2 ^ 32 }
    ensures on { registers.new ≡ record registers.old { address = registers.old.address + 1 } }
    ensures asks { result ≡ request }
{
    registers.address += 1;
    request
}

/// A slot becomes a value.
fn set(registers: &mut Registers, slots: &mut [u32], slot: u32, value: u32) -> Result<Request, Trap>
    requires { registers.old.address + 1 < 2 ^ 32 }
    ensures { (cells : List ℕ)
        → Does (Instr.Set slot value) result (processor registers.old slots.old cells)
        (processor registers.new slots.new cells) }
{
    write(slots, slot, value)?;
    Ok(go_on(registers, Request::Nothing))
}

/// A slot becomes another one.
fn copy(registers: &mut Registers, slots: &mut [u32], slot: u32, from: u32) -> Result<Request, Trap>
    requires { registers.old.address + 1 < 2 ^ 32 }
    ensures { (cells : List ℕ)
        → Does (Instr.Copy slot from) result (processor registers.old slots.old cells)
        (processor registers.new slots.new cells) }
{
    let value = word(slots, from)?;
    write(slots, slot, value)?;
    Ok(go_on(registers, Request::Nothing))
}

/// A slot becomes what an operation gives on two slots.
fn calculate(
    registers: &mut Registers,
    slots: &mut [u32],
    op: Op,
    slot: u32,
    left: u32,
    right: u32,
) -> Result<Request, Trap>
    requires { registers.old.address + 1 < 2 ^ 32 }
    ensures { (cells : List ℕ)
        → Does (Instr.Calc op slot left right) result (processor registers.old slots.old cells)
        (processor registers.new slots.new cells) }
{
    let value = op.apply(word(slots, left)?, word(slots, right)?);
    write(slots, slot, value)?;
    Ok(go_on(registers, Request::Nothing))
}

/// A slot becomes a cell.
fn load(
    registers: &mut Registers,
    slots: &mut [u32],
    cells: &[u32],
    slot: u32,
    cell: u32,
) -> Result<Request, Trap>
    requires { registers.old.address + 1 < 2 ^ 32 }
    ensures { Does (Instr.Load slot cell) result (processor registers.old slots.old cells.now)
        (processor registers.new slots.new cells.now) }
{
    let index = find(cells, cell as usize)?;
    write(slots, slot, cells[index])?;
    Ok(go_on(registers, Request::Nothing))
}

/// A cell becomes a slot.
fn store(
    registers: &mut Registers,
    slots: &[u32],
    cells: &mut [u32],
    cell: u32,
    from: u32,
) -> Result<Request, Trap>
    requires { registers.old.address + 1 < 2 ^ 32 }
    ensures { Does (Instr.Store cell from) result (processor registers.old slots.now cells.old)
        (processor registers.new slots.now cells.new) }
{
    let index = find(cells, cell as usize)?;
    cells[index] = word(slots, from)?;
    Ok(go_on(registers, Request::Nothing))
}

/// A slot becomes the cell that lies so far behind another as a slot says.
fn load_at(
    registers: &mut Registers,
    slots: &mut [u32],
    cells: &[u32],
    slot: u32,
    cell: u32,
    index: u32,
) -> Result<Request, Trap>
    requires { registers.old.address + 1 < 2 ^ 32 }
    ensures { Does (Instr.LoadAt slot cell index) result (processor registers.old slots.old cells.now)
        (processor registers.new slots.new cells.now) }
{
    let behind = word(slots, index)?;
    let index = find(cells, cell as usize + behind as usize)?;
    write(slots, slot, cells[index])?;
    Ok(go_on(registers, Request::Nothing))
}

/// The cell that lies so far behind another as a slot says becomes a slot.
fn store_at(
    registers: &mut Registers,
    slots: &[u32],
    cells: &mut [u32],
    cell: u32,
    index: u32,
    from: u32,
) -> Result<Request, Trap>
    requires { registers.old.address + 1 < 2 ^ 32 }
    ensures { Does (Instr.StoreAt cell index from) result (processor registers.old slots.now cells.old)
        (processor registers.new slots.now cells.new) }
{
    let behind = word(slots, index)?;
    let index = find(cells, cell as usize + behind as usize)?;
    cells[index] = word(slots, from)?;
    Ok(go_on(registers, Request::Nothing))
}

/// Goes to an address.
fn jump(registers: &mut Registers, address: u32) -> Request
    ensures to { registers.new ≡ record registers.old { address = address } }
    ensures asks { result ≡ Request.Nothing }
{
    registers.address = address;
    Request::Nothing
}

/// Goes to an address where a slot is 0, else on.
fn jump_on_zero(
    registers: &mut Registers,
    slots: &[u32],
    slot: u32,
    address: u32,
) -> Result<Request, Trap>
    requires { registers.old.address + 1 < 2 ^ 32 }
    ensures { (cells : List ℕ)
        → Does (Instr.JumpZ slot address) result (processor registers.old slots.now cells)
        (processor registers.new slots.now cells) }
{
    if word(slots, slot)? == 0 {
        Ok(jump(registers, address))
    } else {
        Ok(go_on(registers, Request::Nothing))
    }
}

/// Emits a slot.
fn emit(registers: &mut Registers, slots: &[u32], slot: u32) -> Result<Request, Trap>
    requires { registers.old.address + 1 < 2 ^ 32 }
    ensures { (cells : List ℕ)
        → Does (Instr.Emit slot) result (processor registers.old slots.now cells)
        (processor registers.new slots.now cells) }
{
    let value = word(slots, slot)?;
    Ok(go_on(registers, Request::Emit(value)))
}

/// A slot becomes the time.
fn read_clock(
    time: u32,
    registers: &mut Registers,
    slots: &mut [u32],
    slot: u32,
) -> Result<Request, Trap>
    requires { registers.old.address + 1 < 2 ^ 32 }
    ensures { (cells : List ℕ)
        → HasEffect result (processor registers.old slots.old cells) (processor registers.new slots.new cells)
        (effect (Instr.Clock slot) time (processor registers.old slots.old cells)) }
{
    write(slots, slot, time)?;
    Ok(go_on(registers, Request::Clock(time)))
}

/// Sets the alarm to the instant in a slot.
fn set_alarm(registers: &mut Registers, slots: &[u32], slot: u32, irq: Irq) -> Result<Request, Trap>
    requires { registers.old.address + 1 < 2 ^ 32 }
    ensures { (cells : List ℕ)
        → Does (Instr.Alarm slot irq) result (processor registers.old slots.now cells)
        (processor registers.new slots.now cells) }
{
    let instant = word(slots, slot)?;
    Ok(go_on(registers, Request::Alarm(instant, irq)))
}

/// A slot becomes BASEPRI, and BASEPRI becomes a value.
fn raise(
    registers: &mut Registers,
    slots: &mut [u32],
    slot: u32,
    value: u32,
) -> Result<Request, Trap>
    requires { registers.old.address + 1 < 2 ^ 32 }
    ensures { (cells : List ℕ)
        → Does (Instr.Raise slot value) result (processor registers.old slots.old cells)
        (processor registers.new slots.new cells) }
{
    write(slots, slot, registers.basepri)?;
    registers.basepri = value;
    Ok(go_on(registers, Request::Nothing))
}

/// BASEPRI becomes a slot.
fn restore(registers: &mut Registers, slots: &[u32], slot: u32) -> Result<Request, Trap>
    requires { registers.old.address + 1 < 2 ^ 32 }
    ensures { (cells : List ℕ)
        → Does (Instr.Restore slot) result (processor registers.old slots.now cells)
        (processor registers.new slots.now cells) }
{
    registers.basepri = word(slots, slot)?;
    Ok(go_on(registers, Request::Nothing))
}

/// A slot becomes PRIMASK, and PRIMASK becomes 1.
fn mask(registers: &mut Registers, slots: &mut [u32], slot: u32) -> Result<Request, Trap>
    requires { registers.old.address + 1 < 2 ^ 32 }
    ensures { (cells : List ℕ)
        → Does (Instr.Mask slot) result (processor registers.old slots.old cells)
        (processor registers.new slots.new cells) }
{
    write(slots, slot, u32::from(registers.primask))?;
    registers.primask = true;
    Ok(go_on(registers, Request::Nothing))
}

/// PRIMASK becomes a slot, which is 0 or 1.
fn unmask(registers: &mut Registers, slots: &[u32], slot: u32) -> Result<Request, Trap>
    requires { registers.old.address + 1 < 2 ^ 32 }
    ensures { (cells : List ℕ)
        → Does (Instr.Unmask slot) result (processor registers.old slots.now cells)
        (processor registers.new slots.now cells) }
{
    let value = word(slots, slot)?;
    if value > 1 {
        return Err(Trap::Stack);
    }
    registers.primask = value == 1;
    Ok(go_on(registers, Request::Nothing))
}

/// PRIMASK becomes 0.
fn serve(registers: &mut Registers) -> Request
    requires { registers.old.address + 1 < 2 ^ 32 }
    ensures on { registers.new ≡ record registers.old { address = registers.old.address + 1; primask = false } }
    ensures asks { result ≡ Request.Nothing }
{
    registers.primask = false;
    go_on(registers, Request::Nothing)
}

/// Executes an instruction at a time, in ticks since reset: its effect on the registers, on the words of the running
/// frame and on the cells of memory, and what it asks of the rest of the core. A trap changes nothing.
pub fn execute(
    instr: Instr,
    time: u32,
    registers: &mut Registers,
    slots: &mut [u32],
    cells: &mut [u32],
) -> Result<Request, Trap>
    requires next { registers.old.address + 1 < 2 ^ 32 }
    ensures { HasEffect result (processor registers.old slots.old cells.old)
        (processor registers.new slots.new cells.new)
        (effect instr time (processor registers.old slots.old cells.old)) }
{
    match instr {
        Instr::Set(slot, value) => set(registers, slots, slot, value),
        Instr::Copy(slot, from) => copy(registers, slots, slot, from),
        Instr::Calc(op, slot, left, right) => calculate(registers, slots, op, slot, left, right),
        Instr::Load(slot, cell) => load(registers, slots, cells, slot, cell),
        Instr::Store(cell, from) => store(registers, slots, cells, cell, from),
        Instr::LoadAt(slot, cell, index) => load_at(registers, slots, cells, slot, cell, index),
        Instr::StoreAt(cell, index, from) => store_at(registers, slots, cells, cell, index, from),
        Instr::Jump(address) => Ok(jump(registers, address)),
        Instr::JumpZ(slot, address) => jump_on_zero(registers, slots, slot, address),
        Instr::Emit(slot) => emit(registers, slots, slot),
        Instr::Post(irq) => Ok(go_on(registers, Request::Post(irq))),
        Instr::Clock(slot) => read_clock(time, registers, slots, slot),
        Instr::Alarm(slot, irq) => set_alarm(registers, slots, slot, irq),
        Instr::NoAlarm => Ok(go_on(registers, Request::NoAlarm)),
        Instr::Raise(slot, value) => raise(registers, slots, slot, value),
        Instr::Restore(slot) => restore(registers, slots, slot),
        Instr::Mask(slot) => mask(registers, slots, slot),
        Instr::Unmask(slot) => unmask(registers, slots, slot),
        Instr::Mark => Ok(go_on(registers, Request::Nothing)),
        Instr::Serve => Ok(serve(registers)),
        Instr::Wait => Ok(Request::Nothing),
        Instr::Call(row, slot) => Ok(Request::Call(row, slot)),
        Instr::Back => Ok(Request::Back),
        Instr::Ret => Ok(Request::Return),
    }
}
