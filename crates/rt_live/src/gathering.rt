// Lines of devices that have ended, gathered into the account, and what the words ended with.
ghost use Rattle.std.specs.List.{AllByRecursion};
ghost use Rattle.std.specs.Prelude.{[], length, map, ◌<◌, ◌≡◌, ◌≤◌};
ghost use Rattle.rt_ids.specs.declared.limits.TheConstants.{DEVICES, IRQ_NUMBERS};
ghost use Rattle.rt_live.specs.Account.{HasRoom, counted_row, empty_row, settled_row, with_counts};
ghost use Rattle.rt_live.specs.Ready.{IsBeside, irqs_of, part_of};
ghost use Rattle.rt_words.specs.Row as spec;

use crate::account::AccountRow;
use rt_devices::Device;
use rt_ids::Irq;
use rt_words::{CORE_WORDS, Left, Line, Tally, Words};

/// Bits of a word.
const WORD_BITS: usize = 32;

/// Adds to the rows of a core what a line did there, which latches words of the core `here` and pends on the core
/// `there`.
pub fn add_counts(rows: &mut [AccountRow], core: u8, tally: &Tally, here: u8, there: u8)
    requires room { AllByRecursion HasRoom rows.old }
    ensures { rows.new ≡ map (with_counts core here there tally.now) rows.old }
{
    for row in rows.iter_mut() {
        add_row(row, core, tally, here, there);
    }
}

/// Adds to one row.
fn add_row(row: &mut AccountRow, core: u8, tally: &Tally, here: u8, there: u8)
    requires room { HasRoom row.old }
    ensures { row.new ≡ with_counts core here there tally.now row.old }
{
    let irq = usize::from(row.irq.get());
    if there == core {
        row.raised += u64::from(tally.raised[irq]);
        row.merged += u64::from(tally.merged[irq]);
    }
    if here == core {
        row.latched += u64::from(tally.latched[irq]);
    }
}

/// Gathers the lines of all devices, the last first, into rows that count nothing yet.
pub(crate) fn gather_all(
    line: &mut Line,
    words: &Words,
    mut devices: Vec<Device>,
    rows: &mut [AccountRow],
)
    requires first { line.old.number ≡ 255 }
    requires core { line.old.words ≡ words.now }
    requires none { line.old.gathered ≡ [] }
    requires devices { AllByRecursion (IsBeside words.now) devices.items }
    requires few { length devices.items ≤ DEVICES }
    requires empty { rows.old ≡ map empty_row (irqs_of rows.old) }
    requires in_range { AllByRecursion (λ irq. irq < IRQ_NUMBERS) (irqs_of rows.old) }
    ensures line { line.new
        ≡ record line.old { gathered = map part_of devices.items; since = line.new.since } }
    ensures since { line.old.since ≤ length line.old.calls → line.new.since ≤ length line.old.calls }
    ensures rows { rows.new ≡ map (counted_row 0 (map part_of devices.items)) (irqs_of rows.old) }
{
    while let Some(device) = devices.pop() {
        let Device {
            line: own,
            number: _,
            script: _,
        } = device;
        let tally = line.gather(words, own);
        add_counts(rows, 0, &tally, 0, 0);
    }
}

/// The bit of an interrupt of a core in a row of two cores.
pub(crate) fn bit_in_row(core: u8, irq: Irq) -> usize
    requires { core < 2 }
    ensures is { result ≡ spec.bit_in_row core irq }
    ensures within { result < 1024 }
    ensures numbered { irq < IRQ_NUMBERS }
{
    usize::from(core) * WORD_BITS * usize::from(CORE_WORDS) + usize::from(irq.get())
}

/// Enters into the rows of a core which of its interrupts were left pending.
fn settle(rows: &mut [AccountRow], core: u8, bits: &[u32; 32])
    requires core { core < 2 }
    ensures { rows.new ≡ map (settled_row core bits.now) rows.old }
{
    for row in rows.iter_mut() {
        let bit = bit_in_row(core, row.irq);
        row.left = u64::from((bits[bit / 32] >> (bit % 32)) & 1);
    }
}

/// Enters into the rows of a core what the first line did there, which latches words of the core `here` and pends on
/// the core `there`, and which interrupts were left pending.
pub fn enter_left(rows: &mut [AccountRow], core: u8, left: &Left, here: u8, there: u8)
    requires core { core < 2 }
    requires room { AllByRecursion HasRoom rows.old }
    ensures { rows.new
        ≡ map (settled_row core left.now.bits) (map (with_counts core here there left.now.own) rows.old) }
{
    add_counts(rows, core, &left.own, here, there);
    settle(rows, core, &left.bits);
}
