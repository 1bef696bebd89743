// What a run is made of: the rows of the account, the interrupts that may be pended, and the devices of the script.
ghost use Rattle.std.specs.List.{AllByRecursion};
ghost use Rattle.std.specs.Prelude.{Contains, IfOk, List, OnOk, map, ℕ, ◌%◌, ◌++◌, ◌/◌, ◌<◌, ◌≡◌, ◌≢◌, ◌⊎◌};
ghost use Rattle.rt_ids.specs.declared.limits.TheConstants.{DEVICES, IRQ_NUMBERS};
ghost use Rattle.rt_words.specs.{Lines.new_line, Object.IsPending, Object.pending_bit};
ghost use Rattle.rt_live.specs.{Devices.device_script, Devices.devices, Devices.is_device, Account.declared_irqs};
ghost use Rattle.rt_live.specs.{Account.empty_row, Ready.HasBits, Ready.IsWaiting, Ready.irqs_of, Ready.maker_line};

use crate::account::AccountRow;
use crate::gathering::bit_in_row;
use rt_devices::Device;
use rt_ids::limits::DEVICES;
use rt_ids::{Irq, Names, NoMemory};
use rt_script::Line;
use rt_words::{Line as Caller, Words};
use std::alloc::Global;

/// A row for each declared interrupt, in order, with nothing counted.
pub fn rows_of(alloc: Global, names: &Names) -> Result<Vec<AccountRow>, NoMemory>
    ensures { IfOk result (λ rows. rows.items ≡ map empty_row (declared_irqs names.now)) }
{
    let count = names.irq_count();
    let mut rows = Vec::with_capacity(alloc, count)?;
    for index in 0..count {
        let Some(declared) = names.irq_at(index) else {
            unreachable!()
        };
        rows.push(AccountRow {
            irq: declared.1,
            raised: 0,
            merged: 0,
            latched: 0,
            left: 0,
        })?;
    }
    Ok(rows)
}

/// Adds the bits of a core's interrupts, of which these are the rows.
pub fn add_bits(may: &mut [u32; 32], core: u8, rows: &[AccountRow])
    requires core { core < 2 }
    ensures own { (before : List ℕ) → HasBits core may.old before
        → HasBits core may.new (before ++ irqs_of rows.now) }
    ensures other { (bit : ℕ) → bit / 512 ≢ core → pending_bit may.new bit ≡ pending_bit may.old bit }
    ensures low { (bit : ℕ) → IsPending may.new bit
        → IsPending may.old bit ⊎ ((bit / 512 ≡ core) × (bit % 512 < IRQ_NUMBERS)) }
    ensures in_range { AllByRecursion (λ irq. irq < IRQ_NUMBERS) (irqs_of rows.now) }
{
    for row in rows {
        let bit = bit_in_row(core, row.irq);
        may[bit / 32] |= 1 << (bit % 32);
    }
}

/// Whether a line is one of the device of a number.
fn names_device(lines: &[Line], number: u8) -> bool
    ensures { result ≡ is_device lines.now number }
{
    lines.iter().any(|line| matches!(line, Line::Device(device, _, _) if *device == number))
}

/// What the device of a number pends, in order.
fn script_of(alloc: Global, lines: &[Line], number: u8) -> Result<Vec<(Irq, u32)>, NoMemory>
    ensures { IfOk result (λ script. script.items ≡ device_script lines.now number) }
{
    let mut script = Vec::new(alloc);
    for line in lines {
        if let Line::Device(device, irq, count) = line {
            if *device == number {
                script.push((*irq, *count))?;
            }
        }
    }
    Ok(script)
}

/// The devices of a script, by rising number, each with a line that is made for it.
pub(crate) fn devices_of(
    alloc: Global,
    words: &Words,
    line: &mut Caller,
    lines: &[Line],
) -> Result<Vec<Device>, NoMemory>
    requires { line.old ≡ new_line words.now 255 0 0 }
    ensures devices { IfOk result (λ made. map (λ device. device.number) made.items ≡ devices lines.now) }
    ensures waiting { IfOk result (λ made. AllByRecursion (IsWaiting words.now lines.now) made.items) }
    ensures line { OnOk result (line.new ≡ maker_line words.now line.new.made) }
    ensures made { OnOk result ((number : ℕ) → Contains line.new.made number → Contains (devices lines.now) number) }
{
    let mut made = Vec::new(alloc);
    for number in 0..DEVICES {
        if !names_device(lines, number) {
            continue;
        }
        let script = script_of(alloc, lines, number)?;
        let own = line.split(words, number, 0, 0);
        made.push(Device {
            line: own,
            number,
            script,
        })?;
    }
    Ok(made)
}
