// The rule on numbers and the size of the stack.

ghost use Rattle.std.specs.Prelude.{◌≡◌, ◌<◌, ◌^◌, ◌↔◌, IsTrue};
ghost use Rattle.rt_code.specs.Image.{entry_words};
ghost use Rattle.rt_points.specs.Limits.{IsWithinLimits};
ghost use Rattle.rt_points.specs.Rules.{HasRightNumbers};
ghost use Rattle.rt_points.specs.Stack as stack;
ghost use Rattle.rt_judge.specs.Inside.Greatest as spec;

use rt_code::{Image, IrqRow};
use rt_ids::limits::THREAD_VALUE;
use rt_image_tables::{numbers_differ, values_are_implemented};
use rt_points::STACK_BYTES;

/// The frame of the handler of a row, where it has this priority value.
fn frame_at(row: &IrqRow, value: u16) -> Option<u32>
    ensures { result ≡ spec.frame_at value row.now }
{
    match row.handler {
        Some(handler) => {
            if u16::from(handler.value) == value {
                Some(handler.frame)
            } else {
                None
            }
        }
        None => None,
    }
}

/// The greater of two numbers that may not be there.
fn greater(one: Option<u32>, other: Option<u32>) -> Option<u32>
    ensures { result ≡ spec.greater one other }
{
    match (one, other) {
        (Some(a), Some(b)) => Some(a.max(b)),
        (Some(a), None) => Some(a),
        (None, other) => other,
    }
}

/// The greatest frame of the handlers of a priority value, in words, or None where no handler has it.
fn greatest_frame(irqs: &[IrqRow], value: u16) -> Option<u32>
    ensures { result ≡ spec.greatest_frame value irqs.now }
{
    let mut greatest = None;
    for row in irqs {
        greatest = greater(greatest, frame_at(row, value));
    }
    greatest
}

/// The bytes of the stack that a priority value takes.
fn bytes_at(image: &Image, value: u16) -> u64
    ensures bytes { result ≡ stack.bytes_of (entry_words image.now) (stack.frames_at image.now value) }
    ensures small { result < 2 ^ 35 }
{
    match greatest_frame(&image.irqs, value) {
        Some(frame) => 4 * (u64::from(image.entry_words()) + u64::from(frame)),
        None => 0,
    }
}

/// The bytes that a stack needs.
pub fn stack_need(image: &Image) -> u64
    ensures { result ≡ stack.stack_need image.now }
{
    let mut bytes = 4 * u64::from(image.thread_words);
    for value in 0..THREAD_VALUE {
        bytes += bytes_at(image, value);
    }
    bytes
}

/// Whether the size of the stack is right.
fn stack_is_right(image: &Image) -> bool
    ensures { IsTrue result ↔ spec.HasRightStack image.now }
{
    image.stack_bytes % 8 == 0
        && image.stack_bytes <= STACK_BYTES
        && stack_need(image) <= u64::from(image.stack_bytes)
}

/// Whether interrupts have numbers of their own, priority values have implemented bits alone, and the stack is enough.
pub fn has_right_numbers(image: &Image) -> bool
    requires { IsWithinLimits image.now }
    ensures { IsTrue result ↔ HasRightNumbers image.now }
{
    numbers_differ(&image.irqs)
        && values_are_implemented(image.bits, &image.irqs)
        && stack_is_right(image)
}
