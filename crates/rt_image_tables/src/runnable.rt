// Whether a core runs an image.

ghost use Rattle.std.specs.Prelude.{◌≡◌, ◌==◌, ◌-◌, ◌≤◌, ◌%◌, ◌^◌, ◌↔◌, IsTrue, Some, position};
ghost use Rattle.rt_code.specs.Runnable.{HasRightSizes, TakeFewArguments, HaveImplementedValues};
ghost use Rattle.rt_code.specs.Runnable.{HaveNumbersApart, HasRightRows, IsRunnable};
ghost use Rattle.rt_code.specs.declared.image.Handler.{Handler as Entry};

use rt_code::{BodyRow, Image, IrqRow};
use rt_ids::Irq;

/// Whether each body takes at most four arguments.
fn take_few_arguments(bodies: &[BodyRow]) -> bool
    ensures { IsTrue result ↔ TakeFewArguments bodies.now }
{
    for row in bodies {
        if row.args > 4 {
            return false;
        }
    }
    true
}

/// Whether a row's priority value has only implemented bits.
fn value_is_implemented(bits: u8, row: &IrqRow) -> bool
    requires few { 3 ≤ bits }
    requires many { bits ≤ 7 }
    ensures { IsTrue result ↔ ((h : Entry) → row.now.handler ≡ Some h → h.value % 2 ^ (8 - bits) ≡ 0) }
{
    match row.handler {
        Some(handler) => handler.value % (1 << (8 - bits)) == 0,
        None => true,
    }
}

/// Whether each enabled interrupt's priority value has only implemented bits: with so many bits of priority the low
/// 8 - bits of the byte are 0 (ARMv7-M Architecture Reference Manual, section B1.5.4).
pub fn values_are_implemented(bits: u8, irqs: &[IrqRow]) -> bool
    requires few { 3 ≤ bits }
    requires many { bits ≤ 7 }
    ensures { IsTrue result ↔ HaveImplementedValues bits irqs.now }
{
    for row in irqs {
        if !value_is_implemented(bits, row) {
            return false;
        }
    }
    true
}

/// The index of the first row of an interrupt.
fn first_place(irqs: &[IrqRow], irq: Irq) -> Option<usize>
    ensures { result ≡ position (λ row. row.number == irq) irqs.now }
{
    irqs.iter().position(|row| row.number == irq)
}

/// Whether no two rows of interrupts have one number.
pub fn numbers_differ(irqs: &[IrqRow]) -> bool
    ensures { IsTrue result ↔ HaveNumbersApart irqs.now }
{
    for (index, row) in irqs.iter().enumerate() {
        if first_place(irqs, row.number) != Some(index) {
            return false;
        }
    }
    true
}

/// Whether the sizes of an image are those that a core takes.
fn has_right_sizes(image: &Image) -> bool
    ensures { IsTrue result ↔ HasRightSizes image.now }
{
    (3..=7).contains(&image.bits)
        && image.stack_bytes % 8 == 0
        && image.stack_bytes <= 1 << 20
        && image.thread_words <= image.stack_bytes / 4
        && image.code.len() < 1 << 31
        && image.cells.len() < 1 << 31
}

/// Whether the rows of bodies and interrupts are those that a core takes.
fn has_right_rows(bits: u8, bodies: &[BodyRow], irqs: &[IrqRow]) -> bool
    requires few { 3 ≤ bits }
    requires many { bits ≤ 7 }
    ensures { IsTrue result ↔ HasRightRows bits bodies.now irqs.now }
{
    take_few_arguments(bodies) && values_are_implemented(bits, irqs) && numbers_differ(irqs)
}

/// Whether a core runs an image: it is the condition of making a core.
pub fn is_runnable(image: &Image) -> bool
    ensures { IsTrue result ↔ IsRunnable image.now }
{
    has_right_sizes(image) && has_right_rows(image.bits, &image.bodies, &image.irqs)
}
