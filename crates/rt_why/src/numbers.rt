// The witness of the second rule.

ghost use Rattle.std.specs.Prelude.{◌≡◌, ◌≢◌, ◌≤◌, ◌%◌, ◌-◌, ◌^◌, ◌==◌, MatchBool, MatchOption, position, Some};
ghost use Rattle.std.specs.Prelude.{slice_get};
ghost use Rattle.rt_code.specs.declared.image.Handler.{Handler as HandlerView};
ghost use Rattle.rt_code.specs.declared.image.IrqRow.{IrqRow as IrqRowView};
ghost use Rattle.rt_code.specs.Runnable.{HaveNumbersApart, HaveImplementedValues};
ghost use Rattle.rt_points.specs.Limits.{IsWithinLimits};
ghost use Rattle.rt_points.specs.Rules.{HasRightNumbers};
ghost use Rattle.rt_points.specs.declared.rule.Rule.TheVariants as rule;
ghost use Rattle.rt_judge.specs.Inside.Greatest.{HasRightStack};
ghost use Rattle.rt_why.specs.Witness as spec;

use crate::witness::Witness;
use rt_code::{Image, IrqRow};
use rt_ids::Irq;
use rt_judge::numbers::stack_need;
use rt_points::STACK_BYTES;

/// The index of the first row of an interrupt number.
fn first_place(irqs: &[IrqRow], irq: Irq) -> Option<usize>
    ensures { result ≡ position (λ row. row.number == irq) irqs.now }
{
    irqs.iter().position(|row| row.number == irq)
}

/// The index of the first row of the number of the row at an index.
fn first_of(irqs: &[IrqRow], index: usize, irq: Irq) -> usize
    requires { (row : IrqRowView) × (slice_get irqs.now index ≡ Some row) × (row.number ≡ irq) }
    ensures { position (λ row. row.number == irq) irqs.now ≡ Some result }
{
    match first_place(irqs, irq) {
        Some(first) => first,
        None => unreachable!(),
    }
}

/// Two rows of one interrupt number.
fn one_number(irqs: &[IrqRow]) -> Option<(usize, usize)>
    ensures { MatchOption result (HaveNumbersApart irqs.now) (λ both. spec.HaveOneNumber irqs.now both.0 both.1) }
{
    for (index, row) in irqs.iter().enumerate() {
        let first = first_of(irqs, index, row.number);
        if first != index {
            return Some((first, index));
        }
    }
    None
}

/// Whether a row's priority value has a bit that is not implemented.
fn has_other_bits(bits: u8, row: &IrqRow) -> bool
    requires few { 3 ≤ bits }
    requires many { bits ≤ 7 }
    ensures { MatchBool result
        ((h : HandlerView) × (row.now.handler ≡ Some h) × (h.value % 2 ^ (8 - bits) ≢ 0))
        ((h : HandlerView) → row.now.handler ≡ Some h → h.value % 2 ^ (8 - bits) ≡ 0) }
{
    match row.handler {
        Some(handler) => handler.value % (1 << (8 - bits)) != 0,
        None => false,
    }
}

/// The first row whose priority value has a bit that is not implemented.
fn other_bits(bits: u8, irqs: &[IrqRow]) -> Option<usize>
    requires few { 3 ≤ bits }
    requires many { bits ≤ 7 }
    ensures { MatchOption result (HaveImplementedValues bits irqs.now) (spec.HasOtherBits bits irqs.now) }
{
    for (index, row) in irqs.iter().enumerate() {
        if has_other_bits(bits, row) {
            return Some(index);
        }
    }
    None
}

/// What is wrong with the stack, where its size is the fault.
fn stack_witness(image: &Image) -> Witness
    requires { ¬ HasRightStack image.now }
    ensures witness { spec.IsWitness image.now result }
    ensures rule { spec.rule_of result ≡ rule.Numbers }
{
    if image.stack_bytes % 8 != 0 {
        Witness::Pairs
    } else if image.stack_bytes > STACK_BYTES {
        Witness::Large
    } else {
        Witness::Stack(stack_need(image))
    }
}

/// The witness that the second rule is broken.
pub fn numbers_witness(image: &Image) -> Witness
    requires limits { IsWithinLimits image.now }
    requires broken { ¬ HasRightNumbers image.now }
    ensures witness { spec.IsWitness image.now result }
    ensures rule { spec.rule_of result ≡ rule.Numbers }
{
    if let Some((one, other)) = one_number(&image.irqs) {
        return Witness::Numbers(one, other);
    }
    match other_bits(image.bits, &image.irqs) {
        Some(index) => Witness::Value(index),
        None => stack_witness(image),
    }
}
